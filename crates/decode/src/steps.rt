// The steps of a list, one behind the other.
ghost use Rattle.std.specs.Prelude.{◌≡◌};
ghost use Rattle.std.specs.Iterator.{YieldsFirst, item_count};
ghost use Rattle.decode.specs.Steps.{steps_of, steps_left};

use crate::decode;
use crate::instruction::Instruction;
use isa::features::Features;
use isa::refusal::Refusal;

// What is left of a list.
#[derive(Drop)]
pub struct Steps<'a> {
    left: &'a [u8],
    features: Features,
}

impl<'a> Steps<'a> {
    pub fn of(code: &'a [u8], features: Features) -> Steps<'a>
        ensures { steps_left result ≡ steps_of code.now features.0 }
    {
        Steps {
            left: code,
            features,
        }
    }
}

impl<'a> Iterator for Steps<'a> {
    type Item = Result<Instruction, Refusal>;

    ghost next_gives = { YieldsFirst steps_left };

    ghost remaining = { item_count steps_left };

    // Nothing follows a refused step.
    #[tactic(auto, using(crate::proofs::Listed::accepted_fits, crate::proofs::Listed::no_steps, crate::proofs::Listed::refused_step, crate::proofs::Listed::accepted_step))]
    fn next(&mut self) -> Option<Result<Instruction, Refusal>> {
        let code = self.left;
        if code.is_empty() {
            return None;
        }
        match decode(code, self.features) {
            Ok(x) => {
                self.left = &code[x.length..];
                Some(Ok(x))
            }
            Err(why) => {
                self.left = &[];
                Some(Err(why))
            }
        }
    }
}

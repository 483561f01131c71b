// A list of instructions on a register file, under a budget of steps.
#![tactic(auto)]

ghost use Rattle.std.specs.Prelude.{◌≡◌, length};
ghost use Rattle.run.specs.Run.{stepped_run, stepped_file, refused_run, run_of, file_after_run};

use isa::features::Features;
use isa::kinds::{Code, RegisterFile};
use isa::refusal::Refusal;

#[derive(Clone, Copy)]
pub struct Ran {
    // The steps that were carried out.
    pub steps: u64,
    // Where the next step starts, or the refused one.
    pub place: usize,
    // Err where a step is refused, Ok where the list's end or the budget's was reached.
    pub answer: Result<(), Refusal>,
}

// The steps, once the sizes are right.
fn run_steps(
    code: &[u8],
    file: &mut [u8; RegisterFile::SIZE],
    // A number, since `Mask::COUNT` is no usize.
    masks: &[u64; 8],
    features: Features,
    budget: u64,
) -> Ran
    ensures { (result ≡ stepped_run code.now features.0 budget) × (file.new ≡ stepped_file code.now masks.now features.0 budget file.old) }
{
    let mut rest = code;
    for steps in 0..budget {
        let place = code.len() - rest.len();
        if rest.is_empty() {
            return Ran {
                steps,
                place,
                answer: Ok(()),
            };
        }
        match step::step(rest, file, masks, features, &[]) {
            Ok(length) => rest = &rest[length..],
            Err(why) => {
                return Ran {
                    steps,
                    place,
                    answer: Err(why),
                };
            }
        }
    }
    Ran {
        steps: budget,
        place: code.len() - rest.len(),
        answer: Ok(()),
    }
}

fn refused(why: Refusal) -> Ran
    ensures { result ≡ refused_run why }
{
    Ran {
        steps: 0,
        place: 0,
        answer: Err(why),
    }
}

// Carries out the list until its end, a refusal, or the budget.
#[tactic(auto, unfolding(crate::specs::Run::run_of, crate::specs::Run::file_after_run))]
pub fn run(code: &[u8], file: &mut [u8], masks: &[u64], features: Features, budget: u64) -> Ran
    ensures { (result ≡ run_of code.now (length file.old) (length masks.now) features.0 budget) × (file.new ≡ file_after_run code.now masks.now features.0 budget file.old) }
{
    let Some(masks) = masks.as_array() else {
        return refused(Refusal::Argument);
    };
    let Some(file) = file.as_mut_array() else {
        return refused(Refusal::Argument);
    };
    if !features.known() {
        return refused(Refusal::Argument);
    }
    if Code::LIMIT < code.len() {
        return refused(Refusal::TooLong);
    }
    run_steps(code, file, masks, features, budget)
}

// The exports of the static library: include/tarhuspo.h says the same in C. Each is the function of that name in the crate
// tarhuspo, and repeats its contract. They are alike and yet apart, since C can call no generic function.
#![tactic(auto)]

ghost use Rattle.std.specs.Prelude.{◌≡◌, length};
ghost use Rattle.decode.specs.Decode.{decode_of};
ghost use Rattle.step.specs.Step.{step_of, file_after};
ghost use Rattle.run.specs.Run.{run_of, file_after_run};
ghost use Rattle.bytemap.specs.Build.{build_of, map_built};
ghost use Rattle.bytemap.specs.ByteMap.{apply_of, file_applied, compose_of, map_composed};
ghost use Rattle.address.specs.Address.{address_of};
ghost use Rattle.listing.specs.Listing.{listing_of, text_after};
ghost use Rattle.tarhuspo.specs.Decoded.{decoded_of};
ghost use Rattle.tarhuspo.specs.Stepped.{stepped_of};
ghost use Rattle.tarhuspo.specs.Addressed.{addressed_of};
ghost use Rattle.tarhuspo.specs.Lists.{answer_status, ran_of, built_of, listed_of};

use tarhuspo::{
    TarhuspoAddressed, TarhuspoBuilt, TarhuspoDecoded, TarhuspoListed, TarhuspoRan, TarhuspoStepped,
};

#[unsafe(no_mangle)]
pub extern "C" fn tarhuspo_decode(code: &[u8], features: u32) -> TarhuspoDecoded
    ensures { result ≡ decoded_of (decode_of code.now features) }
{
    tarhuspo::tarhuspo_decode(code, features)
}

#[unsafe(no_mangle)]
pub extern "C" fn tarhuspo_address(
    code: &[u8],
    features: u32,
    registers: &[u64],
    instruction_address: u64,
) -> TarhuspoAddressed
    ensures { result ≡ addressed_of (address_of code.now features registers.now instruction_address) }
{
    tarhuspo::tarhuspo_address(code, features, registers, instruction_address)
}

#[unsafe(no_mangle)]
pub extern "C" fn tarhuspo_step(
    code: &[u8],
    file: &mut [u8],
    masks: &[u64],
    features: u32,
    memory: &[u8],
) -> TarhuspoStepped
    ensures { (result ≡ stepped_of (step_of code.now (length file.old) (length masks.now) features (length memory.now))) × (file.new ≡ file_after code.now masks.now features memory.now file.old) }
{
    tarhuspo::tarhuspo_step(code, file, masks, features, memory)
}

#[unsafe(no_mangle)]
pub extern "C" fn tarhuspo_run(
    code: &[u8],
    file: &mut [u8],
    masks: &[u64],
    features: u32,
    budget: u64,
) -> TarhuspoRan
    ensures { (result ≡ ran_of (run_of code.now (length file.old) (length masks.now) features budget)) × (file.new ≡ file_after_run code.now masks.now features budget file.old) }
{
    tarhuspo::tarhuspo_run(code, file, masks, features, budget)
}

#[unsafe(no_mangle)]
pub extern "C" fn tarhuspo_bytemap_build(
    code: &[u8],
    masks: &[u64],
    features: u32,
    map: &mut [u16],
) -> TarhuspoBuilt
    ensures { (result ≡ built_of (build_of code.now (length masks.now) features (length map.old))) × (map.new ≡ map_built code.now masks.now features map.old) }
{
    tarhuspo::tarhuspo_bytemap_build(code, masks, features, map)
}

#[unsafe(no_mangle)]
pub extern "C" fn tarhuspo_bytemap_apply(map: &[u16], file: &mut [u8]) -> u32
    ensures { (result ≡ answer_status (apply_of map.now (length file.old))) × (file.new ≡ file_applied map.now file.old) }
{
    tarhuspo::tarhuspo_bytemap_apply(map, file)
}

#[unsafe(no_mangle)]
pub extern "C" fn tarhuspo_bytemap_compose(first: &[u16], second: &[u16], out: &mut [u16]) -> u32
    ensures { (result ≡ answer_status (compose_of first.now second.now (length out.old))) × (out.new ≡ map_composed first.now second.now out.old) }
{
    tarhuspo::tarhuspo_bytemap_compose(first, second, out)
}

#[unsafe(no_mangle)]
pub extern "C" fn tarhuspo_listing(code: &[u8], place: usize, text: &mut [u8]) -> TarhuspoListed
    ensures { (result ≡ listed_of (listing_of code.now place (length text.old))) × (text.new ≡ text_after code.now place text.old) }
{
    tarhuspo::tarhuspo_listing(code, place, text)
}

// Two seats that share places.
ghost use Rattle.std.specs.Prelude.{◌≡◌, [], ◌∷◌, IfOk};

use cm_base::transfer::NoMemory;
use cm_sub::owners::Owners;
use cm_sub::state::SubState;
use std::alloc::Global;
use std::test::Fail;

// What a subdevice with one output keeps.
fn kept(alloc: Global, value: u32) -> Result<SubState, NoMemory>
    ensures { IfOk result (λ state. state.values ≡ value ∷ []) }
{
    Ok(SubState {
        values: vec![in alloc; value]?,
        outs: vec![in alloc; true]?,
    })
}

// The values that two seats find at the second of two places, one after the other. The first changes them before it gives
// the place back. Nothing comes of the second where it gets the place before that.
fn handed_on(alloc: Global) -> Result<Vec<u32>, NoMemory> {
    let states = vec![in alloc; kept(alloc, 7)?, kept(alloc, 8)?]?;
    let (owners, mut first) = Owners::open(alloc, states)?;
    let mut other = owners.split(&mut first);
    let mut found = Vec::new(alloc);
    if let Ok(state) = owners.claim(&mut first, 1) {
        found.extend_from_slice(&state.values)?;
        if owners.claim(&mut other, 1).is_err() {
            owners.give_back(&mut first, 1, kept(alloc, 9)?);
            if let Ok(state) = owners.claim(&mut other, 1) {
                found.extend_from_slice(&state.values)?;
            }
        }
    }
    Ok(found)
}

#[test]
fn a_place_has_one_owner_at_a_time(rt: HostRuntime) -> Result<(), Fail> {
    let found = handed_on(rt.alloc())?;
    assert!(rt; found.as_slice() == [8, 9].as_slice());
    Ok(())
}

//! Where the side clauses of a log stand in a claim.

ghost use Rattle.std.specs.Prelude.{◌≡◌, ◌<◌, ◌≤◌, ◌^◌, length, IfOk, IfSome};
ghost use Rattle.certificate_making.specs.ClaimSides.{ArePositionsIn, AreWithin, GivesTo, HavePositions};

use lists::Memory;
use oracle_face::AskId;
use std::alloc::Global;

/// Gives the side clause of a number its position, if there is one.
fn give_position(positions: &mut Vec<u32>, ask: Option<AskId>, position: u32)
    requires { IfSome ask (λ n. (0 < n) × (n ≤ length positions.old.items)) }
    ensures { GivesTo ask position positions.old.items positions.new.items }
{
    if let Some(side) = ask {
        positions[side.number() as usize - 1] = position;
    }
}

/// For each of so many side clauses of a log its position among the side clauses of a claim, counted from 1, or 0 where
/// the claim has none with its literals. `asks` has for each side clause of the claim the number that the log has it
/// under, or None. Of side clauses of the claim with the same literals the first gives the position.
pub fn positions_of(alloc: Global, sides: usize, asks: &[Option<AskId>]) -> Result<Vec<u32>, Memory>
    requires within { AreWithin asks.now sides }
    requires fits { length asks.now < 2 ^ 32 }
    ensures each { IfOk result (λ positions. HavePositions asks.now sides 0 positions.items) }
    ensures positions { IfOk result (λ positions. ArePositionsIn asks.now positions.items) }
{
    let mut positions = Vec::new(alloc);
    positions.resize(sides, 0)?;
    for down in 0..asks.len() {
        let index = asks.len() - 1 - down;
        give_position(&mut positions, asks[index], (index + 1) as u32);
    }
    Ok(positions)
}

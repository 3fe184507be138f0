// Whether the record at a place is asked for: the units are random, so no branch depends on one.
ghost use Rattle.std.specs.Prelude.{◌≡◌, true, cond, ◌+◌, ◌≤◌, eqb, length, drop};
ghost use Rattle.words.specs.Numbers.{le};
ghost use Rattle.records.specs.Records.{kind_of};
ghost use Rattle.journal.specs.Terms.{wanted_of, tallied, node_here, asked};

use crate::scope::Units;

// The unit address of the record of kind 4 at a place.
pub fn read_unit(j: &[u8], at: usize) -> u64
    requires { at + 14 ≤ length j.now }
    ensures { result ≡ le 8 j.now (at + 6) }
{
    words::read_le64(j, at + 6)
}

// The unit that is wanted; 0 where all units are asked for.
pub fn wanted_unit(units: Units) -> u64
    ensures { result ≡ wanted_of units }
{
    match units {
        Units::All => 0,
        Units::One(wanted) => wanted,
    }
}

// 1 where a unit is the one wanted, else 0.
// Kept: this and the tests below give 1 or 0 and no bool, since the scan adds them up with no branch that depends on a record.
pub fn same_unit(wanted: u64, unit: u64) -> usize
    ensures { result ≡ cond (eqb unit wanted) 1 0 }
{
    if unit == wanted { 1 } else { 0 }
}

// Of so many records those that are asked for, where so many are of the unit wanted.
pub fn tally(units: Units, passed: usize, same: usize) -> usize
    ensures { result ≡ tallied units passed same }
{
    match units {
        Units::All => passed,
        Units::One(wanted) => same,
    }
}

// 1 where the good record at a place is asked for, else 0: of kind 4 by its unit, of the other kinds always, whatever eight bytes are compared.
pub fn asked_here(j: &[u8], at: usize, units: Units, kind: usize) -> usize
    requires { (node_here j.now at ≡ true) × (kind ≡ kind_of (drop at j.now)) }
    ensures { result ≡ asked units j.now at 1 }
{
    let four = kind / 4;
    let same = same_unit(wanted_unit(units), words::read_le64(j, at + 6 * four));
    (2 - four + tally(units, 1, same)) / 2
}

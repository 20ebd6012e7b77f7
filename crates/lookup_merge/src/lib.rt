// Looking ids up by a merge: stored ids beside asked ones, both ascending.
#![tactic(auto)]

ghost use Rattle.std.specs.Prelude.{◌≡◌, ◌-◌, ◌≤◌, length, replicate};
ghost use Rattle.bytes_copy.specs.Overwritten.{overwritten};
ghost use Rattle.update_format.specs.Decode.{id_count, ids_in};
ghost use Rattle.standing_bytes.specs.StandingByte.{unknown_byte};
ghost use Rattle.lookup_merge.specs.Merge.{merge};
ghost use Rattle.lookup_merge.specs.Layout.{stored_in};
ghost use Rattle.lookup_merge.specs.Merging.{Walks, Fillable, Merges};

use bytes_order::compare;
use standing_bytes::UNKNOWN;
use std::cmp::Ordering;
use update_format::named;
use update_format::numbers::ID_LENGTH;

// How far a walk came: the asked ids that it passed, and how many comparisons of two ids it made.
#[derive(Clone, Copy)]
struct Progress {
    passed: usize,
    comparisons: usize,
}

// Walks until either run ends. The asked ids that are passed are answered.
fn walk(ids: &[u8], standings: &[u8], asked: &[u8], out: &mut [u8]) -> Progress
    requires { id_count asked.now ≤ length out.old }
    ensures { Walks (stored_in ids.now standings.now) asked.now out.old result.passed result.comparisons out.new }
{
    let count = asked.len() / ID_LENGTH;
    let mut i: usize = 0;
    let mut j: usize = 0;
    let mut comparisons: usize = 0;
    while i < standings.len() && j < count {
        comparisons += 1;
        match compare(named(ids, 0, i), named(asked, 0, j)) {
            Ordering::Less => i += 1,
            Ordering::Equal => {
                out[j] = standings[i];
                i += 1;
                j += 1;
            }
            Ordering::Greater => {
                out[j] = UNKNOWN;
                j += 1;
            }
        }
    }
    Progress {
        passed: j,
        comparisons,
    }
}

// Answers the asked ids from the one at index `from` to the one before `to` as unknown.
fn fill(out: &mut [u8], from: usize, to: usize)
    requires { Fillable from to out.old }
    ensures { out.new ≡ overwritten out.old from (replicate (to - from) unknown_byte) }
{
    out[from..to].fill(UNKNOWN);
}

// Puts the answers of the walk at the start of the output buffer, and gives how many comparisons of two ids it made. The stored ids lie end to end, and beside them the
// bytes of their standings: two runs of any lengths, where a slice of structs would ask callers for ids of 32 bytes each.
pub fn merge(ids: &[u8], standings: &[u8], asked: &[u8], out: &mut [u8]) -> usize
    requires { id_count asked.now ≤ length out.old }
    ensures { Merges (merge (stored_in ids.now standings.now) (ids_in asked.now)) out.old result out.new }
{
    let w = walk(ids, standings, asked, out);
    fill(out, w.passed, asked.len() / ID_LENGTH);
    w.comparisons
}

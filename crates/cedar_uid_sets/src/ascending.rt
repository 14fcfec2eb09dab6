//! Checks whether uids ascend.
ghost use Rattle.std.specs.Prelude.{◌↔◌, ◌<◌, ◌≤◌, IsTrue, length};
ghost use Rattle.cedar_uid_sets.specs.UidSets.{Ascend};
ghost use Rattle.cedar_uid_sets.specs.laws.Places.{RisesIn};

use crate::fronts::order_of;
use crate::shared_uid::SharedUid;

// Returns the end of the run of ascending uids that begins at `start`. All uids of the run have the same short type
// name, and their eids' numbers increase. So no text is compared. If the type name is not short, the run has one uid.
#[inline(always)]
fn run_end(uids: &[SharedUid], start: usize) -> usize
    requires { start < length uids.now }
    ensures after { start < result }
    ensures within { result ≤ length uids.now }
    ensures rises { RisesIn uids.now start result }
{
    let first = uids[start].key();
    let mut at = start + 1;
    if first.kind == 0 {
        return at;
    }
    let mut front = first.front;
    while at < uids.len() {
        let next = uids[at].key();
        if next.kind != first.kind || next.front <= front {
            return at;
        }
        front = next.front;
        at += 1;
    }
    at
}

// Checks whether the uids ascend, if those up to `start` do.
#[inline(never)]
fn ascend_from(uids: &[SharedUid], start: usize) -> bool
    requires some { 0 < start }
    requires within { start ≤ length uids.now }
    requires rises { RisesIn uids.now 0 start }
    ensures { IsTrue result ↔ Ascend uids.now }
{
    let mut at = start;
    while at < uids.len() {
        if !order_of(&uids[at - 1].key(), &uids[at].key()).is_lt() {
            return false;
        }
        at = run_end(uids, at);
    }
    true
}

// Checks whether each uid is less than the next. Most lists are a single run.
#[inline(always)]
pub(crate) fn ascend(uids: &[SharedUid]) -> bool
    ensures { IsTrue result ↔ Ascend uids.now }
{
    if uids.len() < 2 {
        return true;
    }
    let end = run_end(uids, 0);
    if end == uids.len() {
        return true;
    }
    ascend_from(uids, end)
}

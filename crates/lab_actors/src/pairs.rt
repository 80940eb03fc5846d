//! A call on each item of a list together with the gate of its number, each pair in a thread.
ghost use Rattle.std.specs.Prelude.{◌≡◌, ◌<◌, ◌≤◌, length};
ghost use Rattle.std.specs.Thread.{IsSync, IsSend};
ghost use Rattle.lab_actors.specs.Pairs.{AcceptsPair, AcceptsPairs, ChangesFrom, ChangesPair, ChangesPairs, IsReadyFrom};

use std::marker::{Send, Sync};
use std::thread::{Threads, join_mut};

/// Calls `f(i, &mut items[i], &mut gates[i])` for each item, each call in a thread of its own where one can be made, and returns once all
/// have returned.
///
/// Each item and the gate of its number are then what a call of `f` with that number left of them (`ChangesPairs`), both lists are as long
/// as before, and the gates beyond the items are as they were. It takes no memory, and starts fewer threads than there are items. Where no
/// thread can be made the calls run one after another, so calls that wait for one another can hang.
///
/// The caller has at least as many gates as items, and a function that may be called at each pair.
pub fn for_each_pair<R: Threads + Sync, S: Send, G: Send, F: Fn(usize, &mut S, &mut G) + Sync>(
    rt: &R,
    items: &mut [S],
    gates: &mut [G],
    f: &F,
)
    requires gates { length items.old ≤ length gates.old }
    requires accepts { AcceptsPairs F.Fn f.now items.old gates.old }
    ensures { ChangesPairs F.Fn f.now items.old items.new gates.old gates.new }
{
    if !items.is_empty() {
        pairs_from(rt, f, 0, items, gates);
    }
}

// The first pair goes to a new thread, and this one starts the next: threads that start threads in turn cost half as much again. So the
// stack grows with the number of pairs, by a small frame for each. The first pair has the number `base`.
#[cycle(parts)]
fn pairs_from<R: Threads + Sync, S: Send, G: Send, F: Fn(usize, &mut S, &mut G) + Sync>(
    rt: &R,
    f: &F,
    base: usize,
    items: &mut [S],
    gates: &mut [G],
)
    requires { IsReadyFrom F.Fn f.now base items.old gates.old }
    ensures { ChangesFrom F.Fn f.now base items.old items.new gates.old gates.new }
{
    if items.len() == 1 {
        at_one(f, base, &mut items[0], &mut gates[0]);
        return;
    }
    let (low, high) = items.split_at_mut(1);
    let (near, far) = gates.split_at_mut(1);
    both_parts(rt, f, base, low, near, base + 1, high, far);
}

// A function of its own, so that what the closures require is what this function is given.
#[cycle(parts)]
fn both_parts<R: Threads + Sync, S: Send, G: Send, F: Fn(usize, &mut S, &mut G) + Sync>(
    rt: &R,
    f: &F,
    base: usize,
    low: &mut [S],
    near: &mut [G],
    up: usize,
    high: &mut [S],
    far: &mut [G],
)
    requires front { IsReadyFrom F.Fn f.now base low.old near.old }
    requires back { IsReadyFrom F.Fn f.now up high.old far.old }
    ensures front { ChangesFrom F.Fn f.now base low.old low.new near.old near.new }
    ensures back { ChangesFrom F.Fn f.now up high.old high.new far.old far.new }
{
    let mut front = ||
        requires shared { IsSync R.row × IsSync F.row }
        requires sent { IsSend S.row × IsSend G.row }
        requires ready { IsReadyFrom F.Fn f.now base low.now near.now }
        ensures { ChangesFrom F.Fn f.entry.now base
            low.entry.now low.exit.now near.entry.now near.exit.now }
    { pairs_from(rt, f, base, low, near) };
    let mut back = ||
        requires shared { IsSync R.row × IsSync F.row }
        requires sent { IsSend S.row × IsSend G.row }
        requires ready { IsReadyFrom F.Fn f.now up high.now far.now }
        ensures { ChangesFrom F.Fn f.entry.now up
            high.entry.now high.exit.now far.entry.now far.exit.now }
    { pairs_from(rt, f, up, high, far) };
    join_mut(rt, &mut front, &mut back);
}

fn at_one<S, G, F: Fn(usize, &mut S, &mut G)>(f: &F, i: usize, item: &mut S, gate: &mut G)
    requires { AcceptsPair F.Fn f.now i item.old gate.old }
    ensures { ChangesPair F.Fn f.now i item.old gate.old item.new gate.new }
{
    f(i, item, gate);
}

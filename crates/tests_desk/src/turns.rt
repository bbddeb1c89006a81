//! Turns of one thread and of three.
ghost use Rattle.std.specs.Prelude.{◌≡◌, IfOk, OnOk};
ghost use Rattle.std.specs.List.{All};

use crate::account::{Account, say};
use crate::visits::{Fetching, Visits};
use mail_values::{Bytes, Memory};
use std::alloc::Global;
use std::marker::Brand;
use std::process::Abort;
use std::sync::Wait;
use std::test::*;
use std::thread::{Threads, for_each_mut};
use turn_desk::{Blank, Desk, Names, Pass};

#[test]
fn one_thread(rt: HostRuntime) -> Result<(), Fail> {
    let alloc: Global = rt.alloc();
    let first = Blank::new(alloc, 0)?;
    let second = Blank::new(alloc, 1)?;
    take_turns::<Brand, _>(&rt, alloc, first, second)
}

/// Turns of an account, and of a value that holds a pass of the account's desk.
fn take_turns<N: Names, R: Wait + Abort>(
    rt: &R,
    alloc: Global,
    first: Blank,
    second: Blank,
) -> Result<(), Fail>
    requires first { N.table first.number ≡ first.table_id }
    requires second { N.table second.number ≡ second.table_id }
{
    let (account, mut pass) = Desk::<Account, N>::new(first, Account::new(alloc, "ann")?);
    let other = pass.copy(account.table());
    let visits = Visits::new(account.table().try_clone()?, other);
    let (roster, mut front) = Desk::<Visits<N>, N>::new(second, visits);
    visit_often(rt, alloc, &account, &roster, &mut pass, &mut front)?;
    Ok(())
}

/// Three turns of each desk.
fn visit_often<N: Names>(
    rt: &(impl Wait + Abort),
    alloc: Global,
    account: &Desk<Account, N>,
    roster: &Desk<Visits<N>, N>,
    pass: &mut Pass<N>,
    front: &mut Pass<N>,
) -> Result<(), Memory>
    requires pass { pass.old.desk ≡ account.now }
    requires front { front.old.desk ≡ roster.now }
{
    for expected in 1..4 {
        visit(rt, alloc, account, roster, pass, front, expected)?;
    }
    Ok(())
}

/// One turn of each desk, of the number `expected`: the first fetches a pass of the account, the second takes a turn on it.
fn visit<N: Names>(
    rt: &(impl Wait + Abort),
    alloc: Global,
    account: &Desk<Account, N>,
    roster: &Desk<Visits<N>, N>,
    pass: &mut Pass<N>,
    front: &mut Pass<N>,
    expected: u64,
) -> Result<(), Memory>
    requires pass { pass.old.desk ≡ account.now }
    requires front { front.old.desk ≡ roster.now }
    ensures pass { pass.new.desk ≡ pass.old.desk }
    ensures front { front.new.desk ≡ front.old.desk }
{
    let (mut own, fetched) = roster.turn(rt, front, Fetching {});
    assert_eq!(rt; fetched, expected);
    assert_eq!(rt; own.desk(), account.number());
    let word = Bytes::from_slice(alloc, b"A")?;
    let turn = say(rt, account, &mut own, word)?;
    assert_eq!(rt; turn, expected);
    pass.meet(account.table(), own);
    Ok(())
}

#[test]
fn three_threads(rt: HostRuntime) -> Result<(), Fail> {
    let alloc: Global = rt.alloc();
    let first = Blank::new(alloc, 0)?;
    let second = Blank::new(alloc, 1)?;
    take_turns_in_threads::<Brand, _>(&rt, alloc, first, second)
}

/// How many turns a worker takes of each desk.
const ROUNDS: usize = 20;

/// One that takes turns of two accounts, and their numbers.
#[derive(Drop)]
struct Worker<N: Names> {
    ann: Pass<N>,
    bob: Pass<N>,
    ann_turns: Vec<u64>,
    bob_turns: Vec<u64>,
    out_of_memory: bool,
}

/// Three workers take turns of two desks, each in a thread.
fn take_turns_in_threads<N: Names + Send + Sync, R: Threads + Wait + Abort + Sync>(
    rt: &R,
    alloc: Global,
    first: Blank,
    second: Blank,
) -> Result<(), Fail>
    requires first { N.table first.number ≡ first.table_id }
    requires second { N.table second.number ≡ second.table_id }
{
    let (ann, mut ann_pass) = Desk::<Account, N>::new(first, Account::new(alloc, "ann")?);
    let (bob, mut bob_pass) = Desk::<Account, N>::new(second, Account::new(alloc, "bob")?);
    let mut workers = make_workers(alloc, &ann, &bob, &mut ann_pass, &mut bob_pass)?;
    run(rt, alloc, &ann, &bob, workers.as_mut_slice());
    compare_all(rt, &workers);
    Ok(())
}

/// Three workers.
fn make_workers<N: Names>(
    alloc: Global,
    ann: &Desk<Account, N>,
    bob: &Desk<Account, N>,
    ann_pass: &mut Pass<N>,
    bob_pass: &mut Pass<N>,
) -> Result<Vec<Worker<N>>, Memory>
    requires ann { ann_pass.old.desk ≡ ann.now }
    requires bob { bob_pass.old.desk ≡ bob.now }
    ensures at_desks { IfOk result (λ workers. All (λ w. (w.ann.desk ≡ ann.now) × (w.bob.desk ≡ bob.now)) workers.items) }
{
    let mut workers = Vec::new(alloc);
    add_worker(alloc, ann, bob, ann_pass, bob_pass, &mut workers)?;
    add_worker(alloc, ann, bob, ann_pass, bob_pass, &mut workers)?;
    add_worker(alloc, ann, bob, ann_pass, bob_pass, &mut workers)?;
    Ok(workers)
}

/// Adds a worker that has copies of both passes.
fn add_worker<N: Names>(
    alloc: Global,
    ann: &Desk<Account, N>,
    bob: &Desk<Account, N>,
    ann_pass: &mut Pass<N>,
    bob_pass: &mut Pass<N>,
    workers: &mut Vec<Worker<N>>,
) -> Result<(), Memory>
    requires ann { ann_pass.old.desk ≡ ann.now }
    requires bob { bob_pass.old.desk ≡ bob.now }
    requires at_desks { All (λ w. (w.ann.desk ≡ ann.now) × (w.bob.desk ≡ bob.now)) workers.old.items }
    ensures ann { ann_pass.new ≡ ann_pass.old }
    ensures bob { bob_pass.new ≡ bob_pass.old }
    ensures at_desks { OnOk result (All (λ w. (w.ann.desk ≡ ann.now) × (w.bob.desk ≡ bob.now)) workers.new.items) }
{
    let worker = Worker {
        ann: ann_pass.copy(ann.table()),
        bob: bob_pass.copy(bob.table()),
        ann_turns: Vec::new(alloc),
        bob_turns: Vec::new(alloc),
        out_of_memory: false,
    };
    workers.push(worker)?;
    Ok(())
}

/// Lets each worker take its turns, in threads.
fn run<N: Names + Send + Sync, R: Threads + Wait + Sync>(
    rt: &R,
    alloc: Global,
    ann: &Desk<Account, N>,
    bob: &Desk<Account, N>,
    workers: &mut [Worker<N>],
)
    requires at_desks { All (λ w. (w.ann.desk ≡ ann.now) × (w.bob.desk ≡ bob.now)) workers.old }
    ensures at_desks { All (λ w. (w.ann.desk ≡ ann.now) × (w.bob.desk ≡ bob.now)) workers.new }
{
    for_each_mut(
        rt,
        workers,
        3,
        &|_, worker| { take_rounds(rt, alloc, ann, bob, worker) },
    );
}

/// The turns of one worker.
fn take_rounds<N: Names>(
    rt: &impl Wait,
    alloc: Global,
    ann: &Desk<Account, N>,
    bob: &Desk<Account, N>,
    worker: &mut Worker<N>,
)
    requires at_desks { (worker.old.ann.desk ≡ ann.now) × (worker.old.bob.desk ≡ bob.now) }
    ensures at_desks { (worker.new.ann.desk ≡ ann.now) × (worker.new.bob.desk ≡ bob.now) }
{
    for _ in 0..ROUNDS {
        let ann_turn = take_turn(rt, alloc, ann, &mut worker.ann, &mut worker.ann_turns);
        let bob_turn = take_turn(rt, alloc, bob, &mut worker.bob, &mut worker.bob_turns);
        worker.out_of_memory |= ann_turn.is_err() || bob_turn.is_err();
    }
}

/// One turn on a copy of the pass, which then meets the pass.
fn take_turn<N: Names>(
    rt: &impl Wait,
    alloc: Global,
    desk: &Desk<Account, N>,
    pass: &mut Pass<N>,
    turns: &mut Vec<u64>,
) -> Result<(), Memory>
    requires desk { pass.old.desk ≡ desk.now }
    ensures desk { pass.new.desk ≡ pass.old.desk }
{
    let word = Bytes::from_slice(alloc, b"A")?;
    let mut own = pass.copy(desk.table());
    let turn = say(rt, desk, &mut own, word);
    pass.meet(desk.table(), own);
    turns.push(turn?)?;
    Ok(())
}

/// Of each desk the numbers rise for each worker, and all workers together have the numbers from 1 to three times `ROUNDS`.
fn compare_all<N: Names>(rt: &impl Abort, workers: &[Worker<N>]) {
    assert_eq!(rt; workers.len(), 3);
    assert!(rt;
        !workers[0].out_of_memory && !workers[1].out_of_memory && !workers[2].out_of_memory
    );
    let ann = [
        &workers[0].ann_turns,
        &workers[1].ann_turns,
        &workers[2].ann_turns,
    ];
    let bob = [
        &workers[0].bob_turns,
        &workers[1].bob_turns,
        &workers[2].bob_turns,
    ];
    compare(rt, ann[0], ann[1], ann[2]);
    compare(rt, bob[0], bob[1], bob[2]);
}

fn compare(rt: &impl Abort, first: &[u64], second: &[u64], third: &[u64]) {
    check_rising(rt, first);
    check_rising(rt, second);
    check_rising(rt, third);
    for turn in 1..=3 * ROUNDS as u64 {
        let took = first.contains(&turn) as u8
            + second.contains(&turn) as u8
            + third.contains(&turn) as u8;
        assert_eq!(rt; took, 1);
    }
}

fn check_rising(rt: &impl Abort, turns: &[u64]) {
    assert_eq!(rt; turns.len(), ROUNDS);
    assert!(rt; turns.is_sorted());
}

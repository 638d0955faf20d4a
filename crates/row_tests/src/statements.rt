//! What statements find over the blog, and calls that fail.

ghost use Rattle.stmt_run.specs.Store.{HoldsFor};

use crate::asked::{ask, asked_of};
use crate::blog::{Held, opened};
use crate::shown::shown;
use sqlite_items::Items;
use std::alloc::Global;
use std::test::Fail;
use stmt_run::{FaultyRows, MemRows, Snapshot};
use stmt_tree::Rows;

/// What statements find over the blog: STATEMENT => RESULT, worked out by hand from its script. Tables: 0 users, 1 posts, 2
/// comments, 3 notes. Rows are named by their numbers, from 1 in each table.
const FOUND: &str = "\
t1 k => 5[0..5] 1 2 3 4 5;
t1 o1 k => 5[0..5] 1 2 3 5 4;
t1 o1- o2- k => 5[0..5] 4 5 3 2 1;
t1 c1~ k => 1[0..1] 4;
t1 c1~ c2N k => 1[0..1] 4;
t1 c11 c2N k => 0[0..0];
t0 c2~ k => 1[0..1] 2;
t1 o1 s1 f3 k => 5[1..4] 2 3 5;
t1 o1 l2 k => 5[3..5] 5 4;
t1 o1 f4 l2 k => 5[2..4] 3 5;
t1 o1 s9 k => 5[5..5];
t1 o1 f0 k => 5[0..0];
t1 o1 a31 k => 5[3..5] 5 4;
t1 o1 z52 k => 5[0..3] 1 2 3;
t1 o1 a11 z4~ k => 5[1..4] 2 3 5;
t1 o1- a4~ k => 5[1..5] 5 1 2 3;
t1 o1 a11 z52 s1 f4 k => 5[2..3] 3;
t1 n0 f2 k => 5[0..2];
t1 b1 k1 k~ => 3[0..3] 1 2 3;0[0..0];
t1 b1 o0- f2 k1 k2 k9 k~ k1 => 3[0..2] 3 2;1[0..1] 5;0[0..0];0[0..0];3[0..2] 3 2;
t1 b1 l1 k2 k1 k2 k1 => 1[0..1] 5;3[2..3] 3;1[0..1] 5;3[2..3] 3;
t1 b1 b0 k12 k~4 k25 k21 => 1[0..1] 2;0[0..0];1[0..1] 5;0[0..0];
t1 b0 b1 k4~ k12 k52 k31 => 0[0..0];0[0..0];1[0..1] 5;1[0..1] 3;
t1 b1 p0 o0- ^ t0 k => 2[0..2] 1(3[0..3] 3 2 1) 2(1[0..1] 5);
t2 b1 p0 ^ t1 b1 p0 ^ t0 k => 2[0..2] 1(3[0..3] 1(1[0..1] 1) 2(0[0..0]) 3(1[0..1] 2)) 2(1[0..1] 5(1[0..1] 3));
t1 b1 b0 p1 p0 ^ t1 k => 5[0..5] 1(1[0..1] 1) 2(1[0..1] 2) 3(1[0..1] 3) 4(0[0..0]) 5(1[0..1] 5);
t1 b1 p0 o0- f2 ^ t0 k => 2[0..2] 1(3[0..2] 3 2) 2(1[0..1] 5);
t0 b0 p1 & t2 b1 p0 n0 ^ t1 k => 5[0..5] 1(1[0..1] 1)(1[0..1]) 2(1[0..1] 1)(0[0..0]) 3(1[0..1] 1)(1[0..1]) 4(0[0..0])(0[0..0]) 5(1[0..1] 2)(1[0..1]);
t3 c1* k => 1[0..1] 3;
t3 o1- k => 3[0..3] 1 3 2;
t3 o1 a3* k => 3[2..3] 1;
t3 b1 k* ks kx k* k~ => 1[0..1] 3;1[0..1] 2;0[0..0];1[0..1] 3;0[0..0];
t3 b1 p1 ^ t3 k => 3[0..3] 1(0[0..0]) 2(1[0..1] 2) 3(1[0..1] 3);
t1 r5 k => 5[0..5] 1 2 3 4 5;
t1 r4 k => too many
t1 n0 r0 k => 5[0..5];
t1 b1 k1 k1 k1 k1 r; => too many
t1 b1 p0 ^ t0 r6 k => 2[0..2] 1(3[0..3] 1 2 3) 2(1[0..1] 5);
t1 b1 p0 ^ t0 r5 k => too many
t4 k => unfit
t1 o3 k => unfit
t1 c31 k => unfit
t1 b1 k => unfit
t1 a11 k => unfit
t1 b1 p3 ^ t0 k => unfit
t4 ^ t1 b1 p0 ^ t0 k => unfit
";

/// What a store answers to the statement of a line, as text.
fn answer_to<R: Rows<At = Snapshot>>(
    alloc: Global,
    rows: &mut R,
    held: &Held,
    line: &str,
) -> Result<String, Fail>
    requires { R.serves rows.old held.now.at held.now.catalog }
{
    let asked = asked_of(alloc, line)?;
    shown(alloc, ask(rows, held, &asked))
}

/// The lines with what a store in memory finds in place of their results.
fn found(alloc: Global, held: &Held, lines: &str) -> Result<String, Fail>
    requires { HoldsFor held.now.catalog held.now.at }
{
    let mut rows = MemRows::new(alloc);
    let mut out = String::new(alloc);
    for line in lines.lines() {
        let statement = line.split(" => ").next().unwrap_or(line);
        let answer = answer_to(alloc, &mut rows, held, statement)?;
        write!(out, "{statement} => {answer}\n")?;
    }
    Ok(out)
}

#[test]
fn statements_find_their_rows(rt: HostRuntime) -> Result<(), Fail> {
    let held = opened(rt.alloc())?;
    let text = found(rt.alloc(), &held, FOUND)?;
    assert!(rt; text.as_str() == FOUND, "{text}");
    Ok(())
}

/// What three calls give of which the first two are planned to fail.
fn three_calls(alloc: Global, held: &Held) -> Result<String, Fail>
    requires { HoldsFor held.now.catalog held.now.at }
{
    let failing = Items::from_vec(vec![in alloc; 0, 1]?);
    let mut rows = FaultyRows::new(MemRows::new(alloc), failing);
    let mut all = String::new(alloc);
    for _call in 0..3usize {
        let answer = answer_to(alloc, &mut rows, held, "t0 c2~ k")?;
        write!(all, "{answer} ")?;
    }
    Ok(all)
}

#[test]
fn planned_calls_fail(rt: HostRuntime) -> Result<(), Fail> {
    let held = opened(rt.alloc())?;
    let text = three_calls(rt.alloc(), &held)?;
    assert!(rt; text.as_str() == "store store 1[0..1] 2; ");
    Ok(())
}

/// Statements, each with how many were sent after it, and how many rows they got, from the first one on. One that isn't of
/// the catalog isn't sent.
const COUNTED: &str = "\
t1 k => 1 5
t1 r4 k => 2 5
t1 n0 k => 3 5
t1 b1 p0 ^ t0 k => 4 11
t4 k => 4 11
t1 b1 f2 k1 k2 k9 k~ => 5 14
";

/// The lines with what was counted in place of their results.
fn counted(alloc: Global, held: &Held, lines: &str) -> Result<String, Fail>
    requires { HoldsFor held.now.catalog held.now.at }
{
    let mut rows = MemRows::new(alloc);
    let mut out = String::new(alloc);
    for line in lines.lines() {
        let statement = line.split(" => ").next().unwrap_or(line);
        let _answer = answer_to(alloc, &mut rows, held, statement)?;
        write!(out, "{statement} => {} {}\n", rows.sent(), rows.got())?;
    }
    Ok(out)
}

#[test]
fn statements_are_counted(rt: HostRuntime) -> Result<(), Fail> {
    let held = opened(rt.alloc())?;
    let text = counted(rt.alloc(), &held, COUNTED)?;
    assert!(rt; text.as_str() == COUNTED, "{text}");
    Ok(())
}

//! Calls with each of some jobs.
ghost use Rattle.std.specs.Prelude.{◌≡◌, IfOk, length, vec_len};
ghost use Rattle.std.specs.Fork.{AcceptsJobs, GivesJobs};
ghost use denote.Param.Send.{IsSync, IsSend};

use std::alloc::{AllocError, Global};
use std::thread;
use std::thread::{Threads, join};

/// Calls `f(job)` with each job, in a thread of its own, and gives the results in order. One job alone is
/// done in the caller's thread. On `Err`, which means that memory ran out, the results are dropped.
pub fn map_vec<R: Threads + Sync, J: Send + Drop, X: Send + Drop, F: Fn(J) -> X + Sync>(
    rt: &R,
    alloc: Global,
    jobs: Vec<J>,
    f: &F,
) -> Result<Vec<X>, AllocError>
    requires { AcceptsJobs F.Fn f.now jobs.items }
    ensures len { IfOk result (λ made. vec_len made ≡ vec_len jobs) }
    ensures each { IfOk result (λ made. GivesJobs F.Fn f.now jobs.items made.items) }
{
    if jobs.len() < 2 {
        thread::map_vec(rt, jobs, f)
    } else {
        start_each(rt, alloc, jobs, f)
    }
}

/// Starts a thread for each job, the last one first.
#[cycle(jobs)]
fn start_each<R: Threads + Sync, J: Send + Drop, X: Send + Drop, F: Fn(J) -> X + Sync>(
    rt: &R,
    alloc: Global,
    mut jobs: Vec<J>,
    f: &F,
) -> Result<Vec<X>, AllocError>
    requires { AcceptsJobs F.Fn f.now jobs.items }
    ensures len { IfOk result (λ made. vec_len made ≡ vec_len jobs) }
    ensures each { IfOk result (λ made. GivesJobs F.Fn f.now jobs.items made.items) }
{
    let Some(last) = jobs.pop() else {
        return Ok(Vec::new(alloc));
    };
    let one = move || -> X
        requires { F.pre f.now (last) }
        ensures { F.post f.entry.now (last) result }
    { f(last) };
    let others = move || -> Result<Vec<X>, AllocError>
        requires { IsSync R.row × IsSync F.row × IsSend J.row × IsSend X.row
            × AcceptsJobs F.Fn f.now jobs.items }
        ensures { IfOk result (λ made. (vec_len made ≡ vec_len jobs)
            × GivesJobs F.Fn f.entry.now jobs.items made.items) }
    { start_each(rt, alloc, jobs, f) };
    let (last, before) = join(rt, one, others);
    let mut all = before?;
    all.push(last)?;
    Ok(all)
}

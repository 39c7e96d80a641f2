// A list of jobs, and two scripts that take them from it.
use crate::runs::{RUN_LONG, is_short_of_turns, run_set};
use jo_program::Status;
use std::alloc::{AllocError, Global};
use std::test::Fail;

const JOBS: &str = "let jobs = {};
for (let i = 0; i < 6; i += 1) { jobs[i] = {state: \"new\", size: i * 10}; }
shared.next = 0;
shared.jobs = jobs;
%%
while (shared.jobs === undefined) {}
let n = shared.next;
while (n < 6) {
    if (cas(shared, \"next\", n, n + 1) === n) { let j = shared.jobs[n]; j.state = \"done\"; j.by = 2; print(n, j.size); }
    n = shared.next;
}
%%
while (shared.jobs === undefined) {}
let n = shared.next;
while (n < 6) {
    if (cas(shared, \"next\", n, n + 1) === n) { let j = shared.jobs[n]; j.state = \"done\"; j.by = 3; print(n, j.size); }
    n = shared.next;
}";

// The line of a script that took a job.
fn line(alloc: Global, script: u8, job: u8) -> Result<String, AllocError> {
    format!(in alloc; "{script}| {job} {}\n", u32::from(job) * 10)
}

// Which script took each job: 3 where it printed a line of it, and else 2.
fn takers(alloc: Global, text: &str) -> Result<[u8; 6], AllocError> {
    let mut takers = [2; 6];
    for job in 0..6 {
        if text.contains(line(alloc, 3, job)?.as_str()) {
            takers[usize::from(job)] = 3;
        }
    }
    Ok(takers)
}

// The lines of a script that took these of the jobs.
fn lines(alloc: Global, script: u8, takers: &[u8; 6]) -> Result<String, AllocError> {
    let mut lines = String::new(alloc);
    for job in 0..6 {
        if takers[usize::from(job)] == script {
            lines.push_str(line(alloc, script, job)?.as_str())?;
        }
    }
    lines.push_str(format!(in alloc; "{script}= done\n")?.as_str())?;
    Ok(lines)
}

const LIST: &str =
    "#0.0 {\"next\": 6, \"jobs\": #1.0}\n#1.0 {0: #1.1, 1: #1.2, 2: #1.3, 3: #1.4, 4: #1.5, 5: #1.6}\n";

// The line of the object of a job.
fn object(alloc: Global, job: u8, taker: u8) -> Result<String, AllocError> {
    let (serial, size) = (u32::from(job) + 1, u32::from(job) * 10);
    format!(in alloc; "#1.{serial} {{\"state\": \"done\", \"size\": {size}, \"by\": {taker}}}\n")
}

// What is written where each job was done once, by these scripts.
fn done(alloc: Global, takers: &[u8; 6]) -> Result<String, AllocError> {
    let mut text = "1= done\n".to_string(alloc)?;
    text.push_str(lines(alloc, 2, takers)?.as_str())?;
    text.push_str(lines(alloc, 3, takers)?.as_str())?;
    text.push_str(LIST)?;
    for job in 0..6 {
        text.push_str(object(alloc, job, takers[usize::from(job)])?.as_str())?;
    }
    Ok(text)
}

#[test]
fn each_job_is_done_once(rt: HostRuntime) -> Result<(), Fail> {
    let alloc = rt.alloc();
    let ran = run_set(&rt, alloc, RUN_LONG, JOBS)?;
    if !is_short_of_turns(&ran) {
        let takers = takers(alloc, ran.text.as_str())?;
        assert_eq!(rt; ran.text, done(alloc, &takers)?);
        assert_eq!(rt; ran.status, Status::Done);
    }
    Ok(())
}

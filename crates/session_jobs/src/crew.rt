//! The jobs of a session, as they get their passes and as they give them back.
ghost use Rattle.std.specs.Prelude.{◌≡◌, ◌≢◌, ◌+◌, ◌-◌, ◌<◌, ◌≤◌, [], All, AllPairs, IsSome, Some, length, map};
ghost use Rattle.std.specs.Prelude.{vec_len, vec_capacity};
ghost use Rattle.session_jobs.specs.Works.{number_of};
ghost use Rattle.session_jobs.specs.Jobs.{new_job, with_passes};

use crate::job::Job;
use crate::work::Work;
use book_words::Entry;
use shared_book::PassEnd;
use std::sync::ledger::Ledger;
use turn_pass::{BookSeat, Turn};

/// Makes a job of each work, with a new pass of its number. The jobs come into a list that has room
/// for them.
pub fn employ<L, O, A: Ledger, B: Ledger>(
    works: Vec<Work<L, O>>,
    turn: &Turn<Entry, A, B>,
    seat: &mut BookSeat<Entry, A, B>,
    jobs: Vec<Job<L, O, A, B>>,
) -> Vec<Job<L, O, A, B>>
    requires turn { seat.old.table ≡ turn.now.table }
    requires unused { seat.old.bys ≡ [] }
    requires apart { AllPairs (λ v w. number_of v ≢ number_of w) works.items }
    requires row_parts { vec_len works < seat.old.row_parts }
    requires fault_parts { vec_len works < seat.old.fault_parts }
    requires empty { jobs.items ≡ [] }
    requires room { vec_len works ≤ vec_capacity jobs }
    ensures jobs { result.items ≡ map (new_job seat.old) works.items }
    ensures seat { seat.new ≡ with_passes seat.old (map number_of works.items) }
{
    let mut jobs = jobs;
    let mut waiting = works.into_iter();
    while let Some(work) = waiting.next() {
        let pass = seat.pass(turn, work.number());
        jobs.push_reserved(Job {
            work,
            seat: Some(pass),
        });
    }
    waiting.destroy_empty();
    jobs
}

/// Takes jobs apart: their works, and the seats of their callers, come into lists that have room for
/// them.
pub fn dismiss<L, O, A: Ledger, B: Ledger>(
    jobs: Vec<Job<L, O, A, B>>,
    works: Vec<Work<L, O>>,
    ends: Vec<PassEnd<A, B>>,
) -> (Vec<Work<L, O>>, Vec<PassEnd<A, B>>)
    requires seated { All (λ job. IsSome job.seat) jobs.items }
    requires empty { (works.items ≡ []) × (ends.items ≡ []) }
    requires work_room { vec_len jobs ≤ vec_capacity works }
    requires end_room { vec_len jobs ≤ vec_capacity ends }
    ensures works { result.0.items ≡ map (λ job. job.work) jobs.items }
    ensures ends { map (λ pass. Some pass) result.1.items ≡ map (λ job. job.seat) jobs.items }
{
    let mut works = works;
    let mut ends = ends;
    let mut done = jobs.into_iter();
    while let Some(job) = done.next() {
        let Job { work, seat } = job;
        works.push_reserved(work);
        if let Some(seat) = seat {
            ends.push_reserved(seat);
        }
    }
    done.destroy_empty();
    (works, ends)
}

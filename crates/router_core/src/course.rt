//! The course of a step: its parts, one after the other, each with its effect and then settled.
ghost use Rattle.std.specs.Prelude.{◌≡◌, ◌≤◌, ◌<◌, ◌+◌, ◌*◌, ◌^◌, ◌∷◌, [], drop, length, IfOk};
ghost use Rattle.std.specs.List.{All};
ghost use Rattle.answer_store.specs.Contents.{newest_moment as newest_answer};
ghost use Rattle.network_cache.specs.Contents.{newest_moment};
ghost use Rattle.route_choice.specs.Contents.{newest_moment as newest_failure};
ghost use Rattle.request_dispatch.specs.ConnectionTable.{most_sends};
ghost use Rattle.frame_readers.specs.Readers.{Fits};
ghost use Rattle.router_core.specs.Becomes.{Becomes, CutBecomes, Delivers, Cuts, Follows};
ghost use Rattle.router_core.specs.Fitting.{IsFit, brings};

use crate::effect::{cut_off, take_fact};
use crate::misdirection::{given_up, note_given_up};
use crate::notes::{age_in, is_change, note_change, note_failures, note_value};
use crate::octets::Octets;
use alt_base::{ListOf, Moment, NoMemory};
use answer_store::AnswerStore;
use h2_framing::{Frame, Frames};
use network_cache::Cache;
use request_dispatch::{StepState, Tables, settle};
use route_choice::Broken;
use route_events::{Action, Fact};
use std::alloc::Global;

/// How far a step has come: the tables and the actions so far, and what is known of alternatives, of DNS answers and of
/// failed routes.
#[derive(Drop)]
pub struct Course {
    pub state: StepState,
    pub alternatives: Cache,
    pub answers: AnswerStore,
    pub broken: Broken,
}

/// A step with no part yet.
pub(crate) fn begin(
    alloc: Global,
    tables: Tables,
    alternatives: Cache,
    answers: AnswerStore,
    broken: Broken,
) -> Course
    ensures tables { result.state.tables ≡ tables }
    ensures actions { result.state.actions ≡ [] }
    ensures alternatives { result.alternatives ≡ alternatives }
    ensures answers { result.answers ≡ answers }
    ensures broken { result.broken ≡ broken }
{
    Course {
        state: StepState {
            tables,
            actions: ListOf::new(alloc),
        },
        alternatives,
        answers,
        broken,
    }
}

// The actions behind so many.
fn behind(actions: &[Action], count: usize) -> &[Action]
    ensures { result.now ≡ drop count actions.now }
{
    if count > actions.len() {
        return &[];
    }
    &actions[count..]
}

/// A fact has its effect, and then the requests that wait are settled.
pub(crate) fn take_part(
    alloc: Global,
    course: Course,
    now: Moment,
    fact: Fact,
) -> Result<Course, NoMemory>
    requires opened { course.state.tables.attempts.opened + 16777215 < 2 ^ 63 }
    requires sends { most_sends course.state.tables.connections + length course.state.tables.requests.waiting + brings fact ≤ 16777215 }
    requires alternatives { newest_moment course.alternatives ≤ now.0 }
    requires answers { newest_answer course.answers ≤ now.0 }
    requires failures { newest_failure course.broken ≤ now.0 }
    requires fit { IsFit fact }
    ensures becomes { IfOk result (λ new. Becomes course new now.0 fact) }
    ensures alternatives { IfOk result (λ new. newest_moment new.alternatives ≤ now.0) }
    ensures answers { IfOk result (λ new. newest_answer new.answers ≤ now.0) }
    ensures failures { IfOk result (λ new. newest_failure new.broken ≤ now.0) }
{
    let Course {
        mut state,
        mut alternatives,
        mut answers,
        mut broken,
    } = course;
    let age = age_in(&fact);
    let changed = is_change(&fact);
    let before = state.actions.len();
    let given_up = given_up(alloc, &state.tables, &fact)?;
    note_failures(&mut broken, now, &state.tables.attempts, &fact)?;
    take_fact(alloc, &alternatives, &mut answers, now, &mut state, fact)?;
    note_change(&mut alternatives, changed);
    note_given_up(&mut alternatives, &given_up);
    note_value(
        alloc,
        &mut alternatives,
        now,
        age,
        behind(state.actions.as_slice(), before),
    )?;
    settle(alloc, &alternatives, &broken, &answers, now, &mut state)?;
    Ok(Course {
        state,
        alternatives,
        answers,
        broken,
    })
}

/// The octets of a connection can't be followed any further: it is closed, and then the requests that wait are settled.
pub(crate) fn cut(
    alloc: Global,
    course: Course,
    now: Moment,
    conn: u64,
    size: u32,
) -> Result<Course, NoMemory>
    requires opened { course.state.tables.attempts.opened + 16777215 < 2 ^ 63 }
    requires sends { most_sends course.state.tables.connections + length course.state.tables.requests.waiting ≤ 16777215 }
    requires alternatives { newest_moment course.alternatives ≤ now.0 }
    requires answers { newest_answer course.answers ≤ now.0 }
    requires failures { newest_failure course.broken ≤ now.0 }
    ensures becomes { IfOk result (λ new. CutBecomes course new now.0 conn size) }
    ensures alternatives { IfOk result (λ new. newest_moment new.alternatives ≤ now.0) }
    ensures answers { IfOk result (λ new. newest_answer new.answers ≤ now.0) }
    ensures failures { IfOk result (λ new. newest_failure new.broken ≤ now.0) }
{
    let Course {
        mut state,
        alternatives,
        answers,
        broken,
    } = course;
    cut_off(alloc, &mut state, conn, size)?;
    settle(alloc, &alternatives, &broken, &answers, now, &mut state)?;
    Ok(Course {
        state,
        alternatives,
        answers,
        broken,
    })
}

// The fact that a frame is.
fn deliver_one(
    alloc: Global,
    course: Course,
    now: Moment,
    conn: u64,
    frame: Frame,
) -> Result<Course, NoMemory>
    requires opened { course.state.tables.attempts.opened + 16777215 < 2 ^ 63 }
    requires sends { most_sends course.state.tables.connections + length course.state.tables.requests.waiting ≤ 16777215 }
    requires alternatives { newest_moment course.alternatives ≤ now.0 }
    requires answers { newest_answer course.answers ≤ now.0 }
    requires failures { newest_failure course.broken ≤ now.0 }
    requires fit { Fits frame }
    ensures becomes { IfOk result (λ new. Delivers now.0 conn course (frame ∷ []) new) }
    ensures alternatives { IfOk result (λ new. newest_moment new.alternatives ≤ now.0) }
    ensures answers { IfOk result (λ new. newest_answer new.answers ≤ now.0) }
    ensures failures { IfOk result (λ new. newest_failure new.broken ≤ now.0) }
{
    match frame {
        Frame::Passed { .. } => Ok(course),
        Frame::Kept { head, payload } => take_part(
            alloc,
            course,
            now,
            Fact::Delivered {
                conn,
                head,
                payload,
            },
        ),
    }
}

/// Each frame is delivered, in order.
pub(crate) fn deliver_all(
    alloc: Global,
    course: Course,
    now: Moment,
    conn: u64,
    frames: Frames,
) -> Result<Course, NoMemory>
    requires opened { course.state.tables.attempts.opened + length frames * 16777215 < 2 ^ 63 }
    requires sends { most_sends course.state.tables.connections + length course.state.tables.requests.waiting ≤ 16777215 }
    requires alternatives { newest_moment course.alternatives ≤ now.0 }
    requires answers { newest_answer course.answers ≤ now.0 }
    requires failures { newest_failure course.broken ≤ now.0 }
    requires fit { All Fits frames }
    ensures becomes { IfOk result (λ new. Delivers now.0 conn course frames new) }
    ensures alternatives { IfOk result (λ new. newest_moment new.alternatives ≤ now.0) }
    ensures answers { IfOk result (λ new. newest_answer new.answers ≤ now.0) }
    ensures failures { IfOk result (λ new. newest_failure new.broken ≤ now.0) }
{
    let mut course = course;
    for frame in frames.into_vec() {
        course = deliver_one(alloc, course, now, conn, frame)?;
    }
    Ok(course)
}

// The cut, where a head gives a length that is too large.
fn cut_by(
    alloc: Global,
    course: Course,
    now: Moment,
    conn: u64,
    too_large: Option<u32>,
) -> Result<Course, NoMemory>
    requires opened { course.state.tables.attempts.opened + 16777215 < 2 ^ 63 }
    requires sends { most_sends course.state.tables.connections + length course.state.tables.requests.waiting ≤ 16777215 }
    requires alternatives { newest_moment course.alternatives ≤ now.0 }
    requires answers { newest_answer course.answers ≤ now.0 }
    requires failures { newest_failure course.broken ≤ now.0 }
    ensures cuts { IfOk result (λ new. Cuts now.0 conn course too_large new) }
    ensures alternatives { IfOk result (λ new. newest_moment new.alternatives ≤ now.0) }
    ensures answers { IfOk result (λ new. newest_answer new.answers ≤ now.0) }
    ensures failures { IfOk result (λ new. newest_failure new.broken ≤ now.0) }
{
    match too_large {
        None => Ok(course),
        Some(size) => cut(alloc, course, now, conn, size),
    }
}

/// The parts of a fact, one after the other: the fact, the frames that its octets end, and the cut.
pub(crate) fn follow(
    alloc: Global,
    course: Course,
    now: Moment,
    fact: Fact,
    octets: Octets,
) -> Result<Course, NoMemory>
    requires opened { course.state.tables.attempts.opened + 9105 * 16777215 < 2 ^ 63 }
    requires sends { most_sends course.state.tables.connections + length course.state.tables.requests.waiting + brings fact ≤ 16777215 }
    requires alternatives { newest_moment course.alternatives ≤ now.0 }
    requires answers { newest_answer course.answers ≤ now.0 }
    requires failures { newest_failure course.broken ≤ now.0 }
    requires fit { IsFit fact }
    requires few { length octets.frames ≤ 9103 }
    requires frames_fit { All Fits octets.frames }
    ensures follows { IfOk result (λ new. Follows course new now.0 fact octets.conn octets.frames octets.too_large) }
    ensures alternatives { IfOk result (λ new. newest_moment new.alternatives ≤ now.0) }
    ensures answers { IfOk result (λ new. newest_answer new.answers ≤ now.0) }
    ensures failures { IfOk result (λ new. newest_failure new.broken ≤ now.0) }
{
    let Octets {
        conn,
        frames,
        too_large,
    } = octets;
    let course = take_part(alloc, course, now, fact)?;
    let course = deliver_all(alloc, course, now, conn, frames)?;
    cut_by(alloc, course, now, conn, too_large)
}

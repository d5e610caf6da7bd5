// Reads a plan from standard input and prints the gate control list of a duration for two queues, as lines in the form that Linux's
// tc takes; duration, even queue and odd queue are the arguments. What is no list stands on standard error.
#![tactic(auto)]

mod entry; // entry.rt: the fields of a written list
mod shortest; // shortest.rt: whether taprio may refuse it

use console::held_plan;
use entry::say_list;
use gate_writing::MOST_BYTES;
use planner::{GatesRefusal, Planner, gates_number};
use shortest::warn;
use streams::{complain, finish};

// The program's name, and its three arguments.
const WORDS: usize = 4;

// What is asked for.
#[derive(Clone, Copy)]
struct Question {
    duration: u64,
    even: u64,
    odd: u64,
}

fn question_of(rt: HostRuntime) -> Option<Question> {
    if arguments::count(&rt) != WORDS {
        return None;
    }
    Some(Question {
        duration: arguments::number(&rt, 1)?,
        even: arguments::number(&rt, 2)?,
        odd: arguments::number(&rt, 3)?,
    })
}

fn report_refusal(rt: HostRuntime, refusal: GatesRefusal) {
    let number = gates_number(Err(refusal));
    match refusal {
        GatesRefusal::Failing { port, count } => {
            complain(
                &rt,
                format_args!("refused {number} port {port} failing {count}"),
            );
        }
        _ => complain(&rt, format_args!("refused {number}")),
    }
}

fn say_gates(rt: HostRuntime, planner: Planner, question: Question) {
    let mut list = [0u8; MOST_BYTES];
    match planner::gates(
        planner,
        question.duration,
        question.even,
        question.odd,
        &mut list,
    ) {
        Ok(n) => {
            warn(rt, planner, question.duration);
            finish(&rt, say_list(&rt, &list[..n]));
        }
        Err(refusal) => report_refusal(rt, refusal),
    }
}

fn main(rt: HostRuntime) {
    let Some(question) = question_of(rt) else {
        return complain(&rt, "usage: gates DURATION EVEN ODD");
    };
    match held_plan(rt) {
        Ok(held) => say_gates(rt, held.planner, question),
        Err(unheld) => complain(&rt, unheld),
    }
}

// Reads a plan from standard input and draws its admissible durations from 1 to top, and the gaps between them: as a picture (SVG), or
// with the argument text in 80 columns. A duration as argument is marked too. What is no drawing stands on standard error.
#![tactic(auto)]

mod axis; // axis.rt: the marks of the axis and their unit
mod label; // label.rt: the least, the margin-safe and the given duration in words
mod picture; // picture.rt: the drawing as SVG
mod run; // run.rt: columns of one kind
mod scale; // scale.rt: which durations a column stands for
mod strip; // strip.rt: the columns by what they stand for
mod text; // text.rt: the drawing in 80 columns

use console::held_plan;
use label::{Given, marks_of};
use planner::{CheckRefusal, Planner};
use run::Style;
use streams::{complain, finish};

fn draw(rt: HostRuntime, planner: Planner, style: Style, given: Option<Given>) {
    let marks = marks_of(planner, given);
    let wrote = match style {
        Style::Picture => picture::say_picture(&rt, planner, marks),
        Style::Text => text::say_text(&rt, planner, marks),
    };
    finish(&rt, wrote);
}

fn draw_given(rt: HostRuntime, planner: Planner, style: Style, duration: u64) {
    let answer = planner::check(planner, duration);
    let admissible = match answer {
        Ok(()) => true,
        Err(CheckRefusal::Failing { port: _, count: _ }) => false,
        Err(_) => {
            let number = planner::check_number(answer);
            return complain(&rt, format_args!("refused {number}"));
        }
    };
    let given = Given {
        duration,
        admissible,
    };
    draw(rt, planner, style, Some(given));
}

// Where a duration is given it is marked.
fn draw_plan(rt: HostRuntime, style: Style, given: Option<u64>) {
    match (held_plan(rt), given) {
        (Ok(held), Some(duration)) => draw_given(rt, held.planner, style, duration),
        (Ok(held), None) => draw(rt, held.planner, style, None),
        (Err(unheld), _) => complain(&rt, unheld),
    }
}

fn main(rt: HostRuntime) {
    // The words behind the program's name, and behind the word for text where it is given.
    let (style, before) = if arguments::is_word(&rt, 1, b"text") {
        (Style::Text, 2)
    } else {
        (Style::Picture, 1)
    };
    let words = arguments::count(&rt);
    let duration = arguments::number(&rt, before);
    if words == before {
        draw_plan(rt, style, None);
    } else if words == before + 1 && duration.is_some() {
        draw_plan(rt, style, duration);
    } else {
        complain(&rt, "usage: draw [text] [DURATION]");
    }
}

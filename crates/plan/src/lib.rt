// The plan's bytes: a field's head and value, the fields, and the tests of one field.
#![tactic(auto)]

ghost use Rattle.std.specs.Prelude.{◌≡◌};
ghost use Rattle.plan.specs.Answer.{fault_number};

use numbers::clock::Clock;

pub mod layout; // layout.rt: tags, sizes and offsets
pub mod number; // number.rt: numbers of several bytes, high byte first
pub mod forms; // forms.rt: the form of a plan
pub mod split; // split.rt: a field's head, and its value as a part of the plan
pub mod route; // route.rt: a flow's route
pub mod value; // value.rt: what the fields of every kind have in common: tests 4 and 5
pub mod required; // required.rt: the header, ports and flows
pub mod optional; // optional.rt: fields that a plan may leave out
pub mod newer; // newer.rt: the fields of the newer form
pub mod read; // read.rt: a whole field, tests 2 to 5

pub use forms::{form_by, form_from, form_number};
pub use layout::route_start;
pub use number::first_number;
pub use read::{field_at, read_field};
pub use route::{repeats_port, route_bytes, route_len, route_port, route_repeats};
pub use split::{field_value, split_head};

// What a plan can be refused for, by its number: the refusals 1 to 9, and the strict reading's 12.
#[derive(Clone, Copy)]
pub enum Fault {
    Size = 1,
    Truncated = 2,
    UnknownTag = 3,
    WrongLength = 4,
    OutOfRange = 5,
    Duplicate = 6,
    RepeatedPort = 7,
    Incomplete = 8,
    NotInPlan = 9,
    OutOfOrder = 12,
}

// What a plan is refused for, and where.
#[derive(Clone, Copy)]
pub struct Refusal {
    pub fault: Fault,
    pub offset: usize,
}

// The form of a plan (document 02: the old and the new one), by its number: the kinds of field that it may have.
#[derive(Clone, Copy)]
pub enum Form {
    Older = 0,
    Newer = 1,
}

// A field's tag, and the length of its value.
#[derive(Clone, Copy)]
pub struct Head {
    pub tag: u8,
    pub size: usize,
}

#[derive(Clone, Copy)]
pub struct Header {
    pub guard: u32,
    pub top: u32,
}

#[derive(Clone, Copy)]
pub struct Port {
    pub number: u16,
    pub rate: u32,
    pub blocking: u16,
}

// The route stays in the field's value.
#[derive(Clone, Copy)]
pub struct Flow {
    pub number: u16,
    pub period: u32,
    pub count: u16,
    pub length: u16,
    pub hops: u8,
}

// A port's number and the bytes that it adds to each frame.
#[derive(Clone, Copy)]
pub struct Extra {
    pub number: u16,
    pub extra: u16,
}

// A flow's number and the most ns that its frames are released after their nominal instants.
#[derive(Clone, Copy)]
pub struct Jitter {
    pub number: u16,
    pub jitter: u32,
}

// The newer form's header: the clocks' numbers stand in it.
#[derive(Clone, Copy)]
pub struct Header2 {
    pub guard: u32,
    pub top: u32,
    pub drift: u32,
    pub timing_jitter: u32,
    pub sync_error: u32,
}

// The newer form's port, with its extra bytes.
#[derive(Clone, Copy)]
pub struct Port2 {
    pub number: u16,
    pub rate: u32,
    pub blocking: u16,
    pub extra: u16,
}

// The newer form's flow, with its jitter. The route stays in the field's value.
#[derive(Clone, Copy)]
pub struct Flow2 {
    pub number: u16,
    pub period: u32,
    pub count: u16,
    pub length: u16,
    pub jitter: u32,
    pub hops: u8,
}

#[derive(Clone, Copy)]
pub enum Field {
    Header(Header),
    Port(Port),
    Flow(Flow),
    Extra(Extra),
    Jitter(Jitter),
    Clock(Clock),
    Header2(Header2),
    Port2(Port2),
    Flow2(Flow2),
}

// A field, and the offset after it.
#[derive(Clone, Copy)]
pub struct FieldAt {
    pub field: Field,
    pub next: usize,
}

pub fn fault_number(fault: Fault) -> u8
    ensures { result ≡ fault_number fault }
{
    fault as u8
}

// The top of tables by the form that they are held with: tables that no load can have left hold no plan.
ghost use Rattle.std.specs.Prelude.{◌≡◌, leb, get_or};
ghost use Rattle.cqf.specs.Bounded.{all_to};
ghost use Rattle.cqf.specs.Limits.{flow_slots};
ghost use Rattle.cqf.specs.Form.{form_from, most_hops_in, held_top};

use crate::columns;

// Forms are numbered from 0.
const FORMS: u32 = 2;

const OLDER: u32 = 0;

// The most ports of a route in a plan of the form of this number.
fn most_hops(form: u32) -> u8
    ensures { result ≡ most_hops_in (form_from form) }
{
    if form == OLDER {
        return numbers::limits::OLDER_MAX_HOPS as u8;
    }
    numbers::limits::MAX_HOPS as u8
}

// Every slot is looked at, whatever the first ones say: a loop without an exit is one over many slots at once in the machine.
fn hops_within(hops: &columns::Hops, most: u8) -> bool
    ensures { result ≡ all_to flow_slots (λ f. leb (get_or hops.now f 0) most) }
{
    let mut within = true;
    for count in hops.iter() {
        if most < *count {
            within = false;
        }
    }
    within
}

pub fn held_top(form: u32, hops: &columns::Hops, top: u32) -> u32
    ensures { result ≡ held_top form hops.now top }
{
    if FORMS <= form || !hops_within(hops, most_hops(form)) {
        return 0;
    }
    top
}

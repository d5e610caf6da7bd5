// Where a port stands on the routes.
ghost use Rattle.std.specs.Prelude.{◌≡◌, ◌<◌};
ghost use Rattle.cqf.specs.Limits.{port_slots};
ghost use Rattle.tables.specs.Lent.{plan_lent};
ghost use Rattle.emissions.specs.BadEmission.{hop_on, latest_hop};
ghost use Rattle.emissions.specs.Burst.{late_on};

use tables::{FLOWS, Held};

// Where the port in slot q stands on a route, from 0 on; the route's length where it does not.
pub(crate) fn hop_on(route: &[u8], q: usize) -> usize
    requires { q < port_slots }
    ensures { result ≡ hop_on route.now q }
{
    let port = (q + 1) as u8;
    for (i, x) in route.iter().enumerate() {
        if *x == port {
            return i;
        }
    }
    route.len()
}

// The same, but 0 where it does not stand there.
fn late_on(route: &[u8], q: usize) -> usize
    requires { q < port_slots }
    ensures { result ≡ late_on route.now q }
{
    let at = hop_on(route, q);
    if at < route.len() { at } else { 0 }
}

// The latest place at which it stands on a route.
pub(crate) fn latest_hop(held: Held, q: usize) -> usize
    requires { q < port_slots }
    ensures { result ≡ latest_hop (plan_lent held.entry.lent) q }
{
    let mut latest: usize = 0;
    for f in 0..FLOWS {
        latest = latest.max(late_on(held.route(f), q));
    }
    latest
}

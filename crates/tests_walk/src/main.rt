// Runs the search on a small problem with several policies, and prints what each singles out.
#![tactic(auto)]

mod policies;
mod triples;

use policies::{ToTheEnd, UntilTwenty};
use search::{Earliest, Found, Largest, Policy};
use std::io;
use triples::Triples;

// Searches for triples of that total, and prints what the policy singles out and where the search first found one.
fn print_choice<P: Policy>(
    rt: &impl Print,
    name: &str,
    policy: &mut P,
    total: u16,
    from: usize,
) -> io::Result<()> {
    let problem = Triples { total };
    match search::choose(&problem, policy, from) {
        None => println!(rt; "{name} {total}: none"),
        Some(Found { key, lowest }) => {
            let [a, b, c] = [0, 1, 2].map(|place| key.at(place));
            println!(rt; "{name} {total}: {a} {b} {c} of {lowest} and on")
        }
    }
}

fn main(rt: HostRuntime) -> io::Result<()> {
    for total in [0u16, 5, 70, 126, 127, 200, 4095, 4221, 4222] {
        print_choice(&rt, "at once", &mut Earliest {}, total, 0)?;
        print_choice(&rt, "to the end", &mut ToTheEnd {}, total, 0)?;
        print_choice(&rt, "most saved", &mut Largest::new(), total, 0)?;
        print_choice(&rt, "until twenty", &mut UntilTwenty {}, total, 0)?;
    }
    print_choice(&rt, "from 74", &mut Earliest {}, 200, 74)
}

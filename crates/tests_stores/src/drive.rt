// Driving a store and a list through the same calls, and comparing them after each.
use crate::kinds::*;
use crate::slow_list::*;
use crate::source::*;
use gates::Gate;
use std::fmt;
use std::process::Abort;
use stores::{Store, StoreRefusal};

// How many calls a pile is driven through.
pub const STEPS: u32 = 300;

// How many calls were answered, and how many were refused for each reason.
#[derive(Clone, Copy, Default)]
struct Tally {
    answered: u32,
    bad_gates: u32,
    full: u32,
    no_places: u32,
}

impl Tally {
    // Counts what a call came to.
    fn count<T>(&mut self, answer: &Result<T, StoreRefusal>) {
        let calls = match answer {
            Ok(_) => &mut self.answered,
            Err(StoreRefusal::Gate(_)) => &mut self.bad_gates,
            Err(StoreRefusal::Full) => &mut self.full,
            Err(_) => &mut self.no_places,
        };
        *calls = calls.saturating_add(1);
    }
}

// A sequence of calls by a seed, and what they came to.
#[derive(Clone, Copy)]
pub struct Run {
    source: Source,
    tally: Tally,
}

impl Run {
    // No calls yet.
    pub fn new(seed: u32) -> Run {
        Run {
            source: Source::new(seed),
            tally: Tally::default(),
        }
    }

    // The answer is the expected one, which is counted.
    fn check_answer<T: Copy + PartialEq + fmt::Debug>(
        &mut self,
        rt: &impl Abort,
        answer: Result<T, StoreRefusal>,
        expected: Result<T, StoreRefusal>,
    ) {
        self.tally.count(&expected);
        assert_eq!(rt; answer, expected);
    }

    // Many calls were answered, and each reason of refusal occurred.
    pub fn check_varied(&self, rt: &impl Abort) {
        assert!(rt; self.tally.answered > 100);
        assert!(rt; self.tally.bad_gates > 5);
        assert!(rt; self.tally.full > 5);
        assert!(rt; self.tally.no_places > 5);
    }
}

// The answer with the refusal's number.
pub fn numbered<T>(answer: Result<T, StoreRefusal>) -> Result<T, u8> {
    answer.map_err(StoreRefusal::number)
}

// The store with the gate put in so many times, each before the others.
pub fn filled<S: Store>(rt: &impl Abort, store: S, gate: Gate, times: u32) -> S {
    let mut store = store;
    for _ in 0..times {
        assert_eq!(rt; numbered(store.insert(0, gate)), Ok(()));
    }
    store
}

// A store, and the list that it has to show.
#[derive(Drop)]
pub struct Followed<S> {
    pub store: S,
    pub list: SlowList,
}

impl<S: Store> Followed<S>
where
    S::Kind: TestKind,
{
    // The store with the list, which it shows.
    pub fn new(rt: &impl Abort, store: S, list: SlowList) -> Followed<S> {
        let followed = Followed { store, list };
        followed.check_same(rt);
        followed
    }

    // The store shows the list, gate for gate, and can hold as many gates.
    fn check_same(&self, rt: &impl Abort) {
        let count = self.list.count();
        assert_eq!(rt; self.store.lines(), 4);
        assert_eq!(rt; self.store.capacity(), self.list.capacity);
        assert_eq!(rt; self.store.count(), count);
        for (place, gate) in self.list.gates().iter().enumerate() {
            assert_eq!(rt; self.store.read(place), Ok(*gate), "place {place}");
        }
        assert_eq!(rt; numbered(self.store.read(count)), Err(9));
    }

    // One call, with the same answer by both.
    fn call(&mut self, rt: &impl Abort, run: &mut Run) {
        let call = run.source.draw() % 8;
        let place = run.source.draw_place(self.list.count());
        let gate = S::Kind::gate_of(run.source.draw());
        match call {
            0..=3 => {
                let expected = self.list.insert::<S::Kind>(place, gate);
                run.check_answer(rt, self.store.insert(place, gate), expected);
            }
            4..=5 => {
                let expected = self.list.remove(place);
                run.check_answer(rt, self.store.remove(place), expected);
            }
            _ => {
                let expected = self.list.overwrite::<S::Kind>(place, gate);
                run.check_answer(rt, self.store.overwrite(place, gate), expected);
            }
        }
    }

    // The next call, after which the store shows the list.
    pub fn step(&mut self, rt: &impl Abort, run: &mut Run) {
        self.call(rt, run);
        self.check_same(rt);
    }

    // All the calls of a seed; each reason of refusal has to occur.
    pub fn drive(&mut self, rt: &impl Abort, seed: u32) {
        let mut run = Run::new(seed);
        for _ in 0..STEPS {
            self.step(rt, &mut run);
        }
        run.check_varied(rt);
    }

    // Takes gates out and puts gates in until the list has 8.
    pub fn refill(&mut self, rt: &impl Abort) {
        let mut source = Source::new(8);
        for _ in 0..200u32 {
            let gate = S::Kind::gate_of(source.draw());
            if self.list.count() < 8 {
                let expected = self.list.insert::<S::Kind>(0, gate);
                assert_eq!(rt; self.store.insert(0, gate), expected);
            } else if self.list.count() > 8 {
                assert_eq!(rt; self.store.remove(8), self.list.remove(8));
            }
        }
        assert_eq!(rt; self.list.count(), 8);
    }
}

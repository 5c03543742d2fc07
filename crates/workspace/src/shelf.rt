// The shelf: a list of at most 64 templates, each with the count of its replacements.
ghost use Rattle.std.specs.Prelude.{◌≡◌, ◌<◌, ◌≤◌, [], IfNone, IfSome, length, slice_get};
ghost use Rattle.std.specs.Option.{option_map};
ghost use Rattle.fixed_list.specs.Lists.{contents, push_outcome, pushed, removed};
ghost use Rattle.workspace.specs.Conditions.{counted_once, entry};
ghost use Rattle.workspace.specs.Proposals.{template_of};
ghost use Rattle.workspace.specs.declared.shelf.TheConstants.{MOST_ENTRIES};

use super::Template;
use super::entry::Entry;
use fixed_list::{FixedList, Full};

// The most entries that a shelf has.
pub const MOST_ENTRIES: usize = 64;

impl Entry {
    ghost use Rattle.workspace.specs.Shelves.{entry_of};

    // The entry of a template that has just been shelved.
    fn new(template: Template) -> Entry
        ensures { entry_of result ≡ entry (template_of template) 0 }
    {
        Entry {
            template,
            replacements: 0,
        }
    }

    // Counts one more replacement; a full counter stays.
    fn count_one(&mut self)
        ensures { entry_of self.new ≡ counted_once (entry_of self.old) }
    {
        self.replacements = self.replacements.saturating_add(1);
    }
}

// The entries in the order in which they were shelved; withdrawing one closes the shelf up.
#[derive(Clone, Copy)]
pub(crate) struct Shelf {
    entries: FixedList<Entry, MOST_ENTRIES>,
    ghost few: { length (contents entries) ≤ MOST_ENTRIES },
}

impl Shelf {
    ghost use Rattle.workspace.specs.Shelves.{IsNumbered, counted_at, entries_of, entry_of};

    // A bare shelf.
    pub(crate) fn new() -> Shelf
        ensures { entries_of result ≡ [] }
    {
        Shelf {
            entries: FixedList::new(Entry::new(Template::blank())),
        }
    }

    // The number of entries.
    pub(crate) fn count(&self) -> usize
        ensures is { result ≡ length (entries_of self.now) }
        ensures few { result ≤ MOST_ENTRIES }
    {
        self.entries.len()
    }

    // The template of an entry, where there is one of that number.
    pub(crate) fn template_at(&self, number: usize) -> Option<&Template>
        ensures { IsNumbered (entries_of self.now) number result }
    {
        self.entries
            .as_slice()
            .get(number)
            .map(|entry| &entry.template)
    }

    // How many replacements were made by an entry, where there is one of that number.
    pub(crate) fn replacements(&self, number: usize) -> Option<u16>
        ensures { result ≡ option_map (λ e. e.replacements) (slice_get (entries_of self.now) number) }
    {
        self.entries
            .as_slice()
            .get(number)
            .map(|entry| entry.replacements)
    }

    // Counts one more replacement for an entry, where there is one of that number.
    pub(crate) fn count_one(&mut self, number: usize)
        ensures { entries_of self.new ≡ counted_at (entries_of self.old) number }
    {
        self.entries.change(number, |entry| entry.count_one());
    }

    // Puts a template behind the others, its count 0, where there is room.
    pub(crate) fn push(&mut self, template: Template) -> Result<(), Full>
        ensures answers { result ≡ push_outcome MOST_ENTRIES (entries_of self.old) }
        ensures leaves { entries_of self.new ≡ pushed MOST_ENTRIES (entries_of self.old) (entry (template_of template) 0) }
    {
        self.entries.push(Entry::new(template))
    }

    // Takes an entry out, where there is one of that number; those behind it move up.
    pub(crate) fn remove(&mut self, number: usize) -> Option<Entry>
        ensures answers { option_map entry_of result ≡ slice_get (entries_of self.old) number }
        ensures leaves { entries_of self.new ≡ removed (entries_of self.old) number }
    {
        self.entries.remove(number)
    }
}

// Notes: what the search keeps of a key, so that it need not be worked out again for longer keys.
use super::posed::Member;
use super::template::MOST_GATES;
use fixed_list::FixedList;

// A gate of a posed template, and the distances from the first place at which its image can stand.
#[derive(Clone, Copy)]
pub(crate) struct Image {
    pub(crate) member: Member,
    pub(crate) reached: u64,
}

impl Image {
    // What stands behind the images of a note.
    pub(crate) const BLANK: Image = Image {
        member: Member::BLANK,
        reached: 0,
    };
}

// The template as the key poses it, with what each of its gates can reach; and the distances chosen so far.
#[derive(Clone, Copy)]
pub struct Note {
    pub(crate) images: FixedList<Image, MOST_GATES>,
    pub(crate) chosen: u64,
}

// Making notes: a template is posed, its lines are mapped one by one, places are chosen one by one.
ghost use Rattle.std.specs.Prelude.{◌≡◌, ℕ, ◌≤◌, ◌&&◌, ◌||◌, List, length, map, take, ◌==◌};
ghost use Rattle.std.specs.List.{AllZip};
ghost use Rattle.fixed_list.specs.Lists.{contents};
ghost use Rattle.gates.specs.declared.gate.Gate.{Gate};
ghost use Rattle.gates.specs.Lines.{bit};
ghost use Rattle.workspace.specs.Matching.{posed as posed_list};
ghost use Rattle.workspace.specs.Notes.{Narrows, can_stand, members_in, open_reach};
ghost use Rattle.workspace.specs.Proposals.{template_of};
ghost use Rattle.workspace.specs.Starts.{HasRoles, IsSet};

use super::line::Line;
use super::notes::{Image, Note};
use super::posed::Pose;
use super::role::RoleSets;
use super::start::Start;
use super::{Template, posing};
use fixed_list::FixedList;
use gates::GateKind;
use search::candidates;

// The distance of the first place itself.
const FIRST: u64 = 1;

// All distances but that.
const LATER: u64 = !1;

// The note of a template as it is posed: the first gate stands at the first place, the others anywhere behind it.
pub(crate) fn posed_note<K: GateKind>(template: &Template, pose: Pose) -> Note
    ensures poses { members_in result.images ≡ posed_list K.means (template_of template.now) pose.back pose.rotation pose.flips }
    ensures reaches { map (λ m. m.reached) (contents result.images) ≡ take (length (contents result.images)) open_reach }
    ensures chooses { result.chosen ≡ 1 }
{
    let mut images = FixedList::new(Image::BLANK);
    for place in 0..template.size() {
        let image = Image {
            member: posing::pose_member::<K>(template, pose, place),
            reached: if place == 0 { FIRST } else { LATER },
        };
        let _ = images.push(image);
    }
    Note {
        images,
        chosen: FIRST,
    }
}

impl Image {
    // The image with those of its distances at which it can stand, where a line with these roles is the image of the line.
    pub(crate) fn narrowed<K: GateKind>(self, roles: &RoleSets, line: u8) -> Image
        ensures keeps { result.member ≡ self.member }
        ensures reaches { (frame : List Gate) (x : ℕ) → HasRoles K.means frame x roles.now
            → IsSet result.reached (λ d. bit self.reached d && can_stand K.means frame self.member.gate line x d) }
    {
        Image {
            reached: self.reached & roles.matching::<K>(self.member.gate, line),
            ..self
        }
    }
}

impl Note {
    // Narrows each image, after line x became the image of the line.
    pub(crate) fn narrow<K: GateKind>(&mut self, start: &Start<K>, line: u8, x: &Line)
        ensures poses { members_in self.new.images ≡ members_in self.old.images }
        ensures reaches { AllZip (Narrows K.means (contents start.now.frame) line x.now.number) (contents self.old.images) (contents self.new.images) }
        ensures chooses { self.new.chosen ≡ self.old.chosen }
    {
        let roles = start.roles_at(x);
        self.images
            .turn_each(|image| image.narrowed::<K>(&roles, line));
    }

    // The note after one more distance was chosen.
    pub(crate) fn with_distance(&self, distance: usize) -> Note
        ensures keeps { result.images ≡ self.now.images }
        ensures chooses { IsSet result.chosen (λ d. (d == distance) || bit self.now.chosen d) }
    {
        Note {
            chosen: candidates::with_number(self.chosen, distance),
            ..*self
        }
    }
}

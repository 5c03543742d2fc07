// What every kind's gates share: the two sets of controls.
ghost use Rattle.std.specs.Prelude.{◌≡◌};
ghost use Rattle.gates.specs.Controls.{controls_form, controls_hold, reads, with_control_lem, with_flipped_controls_lem, with_renamed_controls_lem};
ghost use Rattle.gates.specs.Lines.{bit};

use super::{Gate, LineSet, Sign, WIDTH, sets};

impl Gate {
    // Whether the controls are lines below `lines`, of which there may be at most `WIDTH`, and no line has both signs.
    #[tactic(auto, unfolding(crate::specs::Controls::controls_form))]
    pub fn are_controls_well_formed(self, lines: u8) -> bool
        ensures { result ≡ controls_form lines self.positive self.negative }
    {
        lines <= WIDTH
            && sets::is_below(self.positive, lines)
            && sets::is_below(self.negative, lines)
            && sets::are_apart(self.positive, self.negative)
    }

    // Whether all positive controls are 1 and all negative ones are 0.
    pub fn do_controls_hold(self, state: LineSet) -> bool
        ensures { result ≡ controls_hold self.positive self.negative (bit state) }
    {
        state & self.positive == self.positive && state & self.negative == 0
    }

    // Whether the line is a control, of either sign.
    pub fn has_control(self, line: u8) -> bool
        ensures { result ≡ reads self line }
    {
        sets::has_line(self.positive, line) || sets::has_line(self.negative, line)
    }

    // The gate with the sign of its controls on the chosen lines inverted.
    pub fn with_flipped_controls(self, chosen: LineSet) -> Gate
        ensures { result ≡ with_flipped_controls_lem chosen self }
    {
        Gate {
            positive: sets::exchange(chosen, self.positive, self.negative),
            negative: sets::exchange(chosen, self.negative, self.positive),
            ..self
        }
    }

    // The gate with its controls on their new lines; `a` and `b` stay.
    pub fn with_renamed_controls(self, table: &[u8]) -> Gate
        ensures { result ≡ with_renamed_controls_lem table.now self }
    {
        Gate {
            positive: sets::rename(table, self.positive),
            negative: sets::rename(table, self.negative),
            ..self
        }
    }

    // The gate with one more control.
    pub fn with_control(self, line: u8, sign: Sign) -> Gate
        ensures { result ≡ with_control_lem line sign self }
    {
        match sign {
            Sign::Positive => Gate {
                positive: sets::with_line(self.positive, line),
                ..self
            },
            Sign::Negative => Gate {
                negative: sets::with_line(self.negative, line),
                ..self
            },
        }
    }
}

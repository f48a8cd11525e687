// Setting labels: seconds, metres, a count or a mark.
ghost use Rattle.std.specs.Prelude.{◌≡◌, ◌+◌, ◌≤◌, length, IfSome, Decides, ◌==◌, to_bits};
ghost use Rattle.std.specs.Float.{binary32};
ghost use Rattle.bounded.specs.Lists.{held, room, Appended};
ghost use Rattle.kinds.specs.declared.refusal.Refusal.TheVariants.{Setting as SettingRefused};
ghost use Rattle.kinds.specs.Settings.{Meant, meant_by, meant, alike_meant, inside, legal, making, text_of, setting_text, Holds, Made};
ghost use Rattle.kinds.specs.SettingTexts.{setting_tied, settings_exact};

use crate::field::Field;
use crate::filed::{FiledLabel, TEXT_SIZE};
use crate::label::Label;
use crate::refusal::Refusal;
use bounded::list::Bounded;
use std::num::{f32_from_bits_with_nan, f32_to_bits_with_nan};

// How many bytes the text of a label can have.
const LONGEST: usize = 10;

// A sort with its value.
#[derive(Clone, Copy, Debug)]
pub enum Setting {
    Seconds(f32),
    Metres(f32),
    Count(u16),
    Mark,
}

// A row of a table: any setting may stand in it.
#[derive(Clone, Copy, Debug)]
pub struct SettingLabel {
    pub setting: Setting,
}

// Whether a number of seconds or metres is finite and from 0 to 9,999.
fn in_range(x: f32) -> bool
    ensures { result ≡ inside x }
{
    (0.0..=9999.0).contains(&x)
}

impl Setting {
    // Whether the value is in its sort's range.
    fn is_legal(self) -> bool
        ensures { result ≡ legal self }
    {
        match self {
            Setting::Seconds(x) | Setting::Metres(x) => in_range(x),
            Setting::Count(_) | Setting::Mark => true,
        }
    }
}

impl SettingLabel {
    // The label of a setting, or a refusal where the value is outside its sort's range.
    pub fn make(setting: Setting) -> Result<SettingLabel, Refusal>
        ensures { result ≡ making setting }
    {
        if setting.is_legal() {
            Ok(SettingLabel { setting })
        } else {
            Err(Refusal::Setting)
        }
    }
}

impl TryFrom<Setting> for SettingLabel {
    type Error = Refusal;

    ghost try_from_gives = { λ setting made. made ≡ making setting };

    fn try_from(setting: Setting) -> Result<SettingLabel, Refusal> {
        SettingLabel::make(setting)
    }
}

// Whether two floats have one bit pattern, where all that are no numbers have one.
fn one_pattern(x: f32, y: f32) -> bool
    ensures { result ≡ (to_bits binary32 x == to_bits binary32 y) }
{
    f32_to_bits_with_nan(x) == f32_to_bits_with_nan(y)
}

impl Label for SettingLabel {
    ghost Meaning = { Meant };

    ghost meaning = { meant };

    ghost alike = { λ s t. alike_meant (meant s) (meant t) };

    ghost exact = { settings_exact };

    fn same(&self, other: &SettingLabel) -> bool {
        match (self.setting, other.setting) {
            (Setting::Seconds(x), Setting::Seconds(y)) => one_pattern(x, y),
            (Setting::Metres(x), Setting::Metres(y)) => one_pattern(x, y),
            (Setting::Count(m), Setting::Count(n)) => m == n,
            (Setting::Mark, Setting::Mark) => true,
            _ => false,
        }
    }
}

// Puts the text of a setting at the end of the list.
#[tactic(auto, using(crate::specs::SettingTexts::pattern_long, crate::specs::SettingTexts::count_short))]
fn append_text(list: &mut Bounded<u8>, setting: Setting)
    requires { length (held list.old) + 10 ≤ room list.old }
    ensures text { Appended list.old list.new (text_of (meant_by setting)) }
    ensures short { length (text_of (meant_by setting)) ≤ 10 }
{
    match setting {
        Setting::Seconds(x) => Field::SECONDS.append(list, f32_to_bits_with_nan(x)),
        Setting::Metres(x) => Field::METRES.append(list, f32_to_bits_with_nan(x)),
        Setting::Count(n) => Field::COUNT.append(list, u32::from(n)),
        Setting::Mark => {
            let _ = list.append(b'M');
        }
    }
}

// The setting whose text this can be, or none where it is no setting's.
fn likely(bytes: &[u8]) -> Option<Setting>
    ensures finds { (v : Setting) → Holds v → text_of (meant_by v) ≡ bytes.now → result ≡ Some v }
    ensures holds { IfSome result Holds }
{
    match bytes.first()? {
        b'S' => Some(Setting::Seconds(f32_from_bits_with_nan(Field::SECONDS.read(bytes)?))),
        b'L' => Some(Setting::Metres(f32_from_bits_with_nan(Field::METRES.read(bytes)?))),
        b'C' => Some(Setting::Count(u16::try_from(Field::COUNT.read(bytes)?).ok()?)),
        b'M' => Some(Setting::Mark),
        _ => None,
    }
}

impl FiledLabel for SettingLabel {
    ghost text = { setting_text };

    ghost made = { Made };

    ghost refusal = { SettingRefused };

    ghost tied = { setting_tied };

    #[tactic(auto, using(crate::proofs::Buffers::listed, crate::specs::SettingTexts::setting_tied))]
    fn write_text(&self, out: &mut [u8]) -> Option<usize> {
        if out.len() < TEXT_SIZE {
            return None;
        }
        let mut list = Bounded::new(out);
        append_text(&mut list, self.setting);
        Some(list.count())
    }

    // A text is a label's exactly if it is the text of the label that it is likely to be of. A
    // longer text than a label has is refused at one look, however long it is.
    #[tactic(auto, using(crate::specs::SettingTexts::setting_tied, crate::specs::SettingTexts::made_short))]
    fn read_text(bytes: &[u8]) -> Result<SettingLabel, Refusal> {
        if LONGEST < bytes.len() {
            return Err(Refusal::Setting);
        }
        let setting = likely(bytes).ok_or(Refusal::Setting)?;
        let label = SettingLabel::make(setting)?;
        if has_text(label, bytes) {
            Ok(label)
        } else {
            Err(Refusal::Setting)
        }
    }
}

// Whether the label has this text.
fn has_text(label: SettingLabel, bytes: &[u8]) -> bool
    ensures { Decides result (setting_text label ≡ bytes.now) }
{
    let mut written = [0u8; TEXT_SIZE];
    match label.write_text(&mut written) {
        Some(len) => &written[..len] == bytes,
        None => false,
    }
}

#[cfg(test)]
mod tests {
    use super::*;

    // Whether seconds and metres of this value are refused.
    fn is_refused(x: f32) -> bool {
        let seconds = SettingLabel::make(Setting::Seconds(x)).is_err();
        let metres = SettingLabel::make(Setting::Metres(x)).is_err();
        seconds && metres
    }

    #[test]
    fn ranges(rt: HostRuntime) {
        assert!(rt; !is_refused(0.0));
        assert!(rt; !is_refused(-0.0), "minus zero passes");
        assert!(rt; !is_refused(9999.0));
        assert!(rt; is_refused(9999.001));
        assert!(rt; is_refused(-0.5));
        assert!(rt; is_refused(1.0 / 0.0), "infinity");
        assert!(rt; is_refused(0.0 / 0.0), "no number");
        assert!(rt; SettingLabel::make(Setting::Count(65535)).is_ok());
    }

    #[test]
    fn zeros_and_no_numbers(rt: HostRuntime) {
        let plus = SettingLabel {
            setting: Setting::Seconds(0.0),
        };
        let minus = SettingLabel {
            setting: Setting::Seconds(-0.0),
        };
        let none = SettingLabel {
            setting: Setting::Seconds(0.0 / 0.0),
        };
        assert!(rt; !plus.same(&minus), "the two zeros differ");
        assert!(rt;
            none.same(&none),
            "one that is no number is the same as itself"
        );
        assert!(rt; has_text(minus, b"S:80000000"));
        assert!(rt; has_text(none, b"S:7FC00000"));
    }
}

//! `Setting`: for whom lines are answered.
ghost use Rattle.std.specs.Prelude.{◌≡◌};
ghost use Rattle.ratio.specs.Settings.{is_brief, setting_of, writes_always};

/// For whom lines are answered.
#[derive(Clone, Copy, PartialEq, Debug)]
pub enum Setting {
    /// A person types lines at a prompt, and some words are commands.
    Prompt,
    /// A file or a pipe gives the lines. A blank line is answered by nothing, and a refusal has three lines.
    Pipe,
    /// `--lines`: a script pairs each line with its answer. A blank line is answered by a blank line, and a refusal is one line.
    Paired,
}

/// The setting, if `--lines` was asked for or not, and the lines come from a terminal or not.
pub fn setting_of(paired: bool, on_terminal: bool) -> Setting
    ensures { result ≡ setting_of paired on_terminal }
{
    if paired {
        Setting::Paired
    } else if on_terminal {
        Setting::Prompt
    } else {
        Setting::Pipe
    }
}

/// Whether the refusal of a line is only its last line, the reason. So it is for each line in `Paired`, and else for one of more than 200 bytes.
pub fn is_brief(setting: Setting, line: &[u8]) -> bool
    ensures { result ≡ is_brief setting line.now }
{
    match setting {
        Setting::Paired => true,
        Setting::Prompt | Setting::Pipe => line.len() > 200,
    }
}

// The settings of a script, and the first line that is none.
ghost use Rattle.std.specs.Prelude.{◌≡◌, IfSome, IfNone};
ghost use Rattle.sd_script.specs.Grammar.{HasForm};
ghost use Rattle.sd_script.specs.declared.line.ScriptLine.TheVariants.{Set};
ghost use Rattle.sd_script.specs.declared.line.Setting.{Setting as SpecSetting};
ghost use Rattle.sd_tool.specs.Head.{BeginsWith, IsHead};
ghost use Rattle.sd_tool.specs.Settings.{IsOther};

use crate::lines::{Lines, Next};
use crate::values::Values;
use sd_script::{Part, ScriptLine, Setting, read_line};
use std::alloc::Global;
use std::io::BufRead;

/// The settings at the head of a script, and the first other line.
#[derive(Drop)]
pub struct Settings {
    pub values: Values,
    pub lines: Lines,
    pub first: Next,
}

/// Reads the settings, and keeps the first other line: any line that is no setting ends them, an
/// empty one and a refused one too. So does a setting for which there is no memory.
pub fn read_settings<R: BufRead>(alloc: Global, reader: &mut R) -> Settings
    ensures head { IsHead result.values result.lines result.first }
    ensures begins { IfSome (R.remaining reader.old)
        (λ input. BeginsWith input result.lines.came result.lines.bytes result.first) }
{
    let mut values = Values::usual(alloc);
    let mut lines = Lines::new(alloc);
    for _ in 0..u64::MAX {
        let first = lines.read_next(reader);
        let Some(setting) = setting_of(&lines, first) else {
            return Settings {
                values,
                lines,
                first,
            };
        };
        let Ok(()) = values.set(setting) else {
            return Settings {
                values,
                lines,
                first: Next::NoMemory,
            };
        };
    }
    Settings {
        values,
        lines,
        first: Next::End,
    }
}

/// The setting that was read, if what was read is one.
fn setting_of(lines: &Lines, read: Next) -> Option<Setting>
    ensures found { IfSome result (λ setting. HasForm lines.now.bytes (Set setting)) }
    ensures line { IfSome result (λ _. read ≡ Next.Line) }
    ensures none { IfNone result (read ≡ Next.Line → IsOther lines.now.bytes) }
{
    let Next::Line = read else {
        return None;
    };
    match read_line(Part::Head, lines.bytes()) {
        Ok(line) => setting_in(line),
        Err(_) => None,
    }
}

/// The setting of a line, if it is one.
fn setting_in(line: ScriptLine<'_>) -> Option<Setting>
    ensures found { IfSome result (λ setting. line.entry ≡ Set setting) }
    ensures none { IfNone result ((setting : SpecSetting) → line.entry ≡ Set setting → ⊥) }
{
    match line {
        ScriptLine::Set(setting) => Some(setting),
        _ => None,
    }
}

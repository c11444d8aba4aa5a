// The lines of several fields, and those whose one field is no number of a drive or a session; those that
// are no settings.
ghost use Rattle.std.specs.Prelude.{◌≡◌};
ghost use Rattle.sd_script.specs.Reading.{Gives, behind_shape, shape};
ghost use Rattle.sd_script.specs.declared.command.Command.TheVariants as commands;

use crate::console::ConsoleCmd;
use crate::line::{LineFault, MOST_MOMENT, ScriptLine, Tail};
use sd_base::{MOST_DATA, MOST_NUMBER, Name, SessionKey};
use sd_text::{Text, Words};

/// The greatest FileIndex, Stream and VolSessionId, as a number of the width that fields are read in.
const MOST: u64 = MOST_NUMBER as u64;

pub fn at(words: Words<'_>) -> Result<ScriptLine<'_>, LineFault>
    ensures { Gives result (shape commands.At words.entry) }
{
    let moment = words.only_number(0, MOST_MOMENT)?;
    Ok(ScriptLine::At(moment as i64))
}

#[tactic(auto, unfolding(crate::specs::Reading::label_shape))]
pub fn label(mut words: Words<'_>) -> Result<ScriptLine<'_>, LineFault>
    ensures { Gives result (shape commands.Label words.entry) }
{
    let drive = words.numbered()?;
    let volume = words.word()?;
    let pool = words.word()?;
    let media = words.word()?;
    words.end()?;
    Ok(ScriptLine::Console(ConsoleCmd::Label {
        drive,
        volume: Name::parse(volume)?,
        pool: Name::parse(pool)?,
        media: Name::parse(media)?,
    }))
}

#[tactic(auto, unfolding(crate::specs::Reading::adopt_shape))]
pub fn adopt(mut words: Words<'_>) -> Result<ScriptLine<'_>, LineFault>
    ensures { Gives result (shape commands.Adopt words.entry) }
{
    let drive = words.numbered()?;
    let volume = words.word()?;
    words.end()?;
    Ok(ScriptLine::Console(ConsoleCmd::Adopt {
        drive,
        volume: Name::parse(volume)?,
    }))
}

#[tactic(auto, unfolding(crate::specs::Reading::mount_shape))]
pub fn mount(mut words: Words<'_>) -> Result<ScriptLine<'_>, LineFault>
    ensures { Gives result (shape commands.Mount words.entry) }
{
    let drive = words.numbered()?;
    let volume = words.word()?;
    words.end()?;
    Ok(ScriptLine::Console(ConsoleCmd::Mount {
        drive,
        volume: Name::parse(volume)?,
    }))
}

#[tactic(auto, unfolding(crate::specs::Reading::purge_shape))]
pub fn purge(mut words: Words<'_>) -> Result<ScriptLine<'_>, LineFault>
    ensures { Gives result (shape commands.Purge words.entry) }
{
    let drive = words.numbered()?;
    let volume = words.word()?;
    words.end()?;
    Ok(ScriptLine::Console(ConsoleCmd::Purge {
        drive,
        volume: Name::parse(volume)?,
    }))
}

#[tactic(auto, unfolding(crate::specs::Reading::open_shape))]
pub fn open(mut words: Words<'_>) -> Result<ScriptLine<'_>, LineFault>
    ensures { Gives result (shape commands.Open words.entry) }
{
    let job = words.numbered()?;
    let pool = words.word()?;
    let media = words.word()?;
    words.end()?;
    Ok(ScriptLine::Open {
        job,
        pool: Name::parse(pool)?,
        media: Name::parse(media)?,
    })
}

#[tactic(auto, unfolding(crate::specs::Reading::rec_shape))]
pub fn rec(mut words: Words<'_>) -> Result<ScriptLine<'_>, LineFault>
    ensures { Gives result (shape commands.Rec words.entry) }
{
    let ticket = words.numbered()?;
    let index = words.number(1, MOST)?;
    let stream = words.number(1, MOST)?;
    let text = words.rest();
    if text.len() > MOST_DATA {
        return Err(LineFault::BadCommand);
    }
    Ok(ScriptLine::Rec {
        ticket,
        index: index as u32,
        stream: stream as u32,
        text: Text::new(text),
    })
}

#[tactic(auto, unfolding(crate::specs::Reading::fill_shape))]
pub fn fill(mut words: Words<'_>) -> Result<ScriptLine<'_>, LineFault>
    ensures { Gives result (shape commands.Fill words.entry) }
{
    let ticket = words.numbered()?;
    let index = words.number(1, MOST)?;
    let stream = words.number(1, MOST)?;
    let count = words.only_number(0, MOST_DATA as u64)?;
    Ok(ScriptLine::Fill {
        ticket,
        index: index as u32,
        stream: stream as u32,
        count: count as usize,
    })
}

#[tactic(auto, unfolding(crate::specs::Reading::again_shape))]
pub fn again(mut words: Words<'_>) -> Result<ScriptLine<'_>, LineFault>
    ensures { Gives result (shape commands.Again words.entry) }
{
    let time = words.number(1, MOST)?;
    let id = words.only_number(1, MOST)?;
    Ok(ScriptLine::Again(SessionKey {
        time: time as u32,
        id: id as u32,
    }))
}

#[tactic(auto, unfolding(crate::specs::Reading::restart_shape))]
pub fn restart(mut words: Words<'_>) -> Result<ScriptLine<'_>, LineFault>
    ensures { Gives result (shape commands.Restart words.entry) }
{
    let time = words.number(1, MOST)? as u32;
    if words.end().is_ok() {
        return Ok(ScriptLine::Restart { time, tail: None });
    }
    restart_behind(time, words)
}

/// The line `restart` of that time, with what a stop leaves.
#[tactic(auto, unfolding(crate::specs::Reading::behind_shape))]
fn restart_behind(time: u32, mut words: Words<'_>) -> Result<ScriptLine<'_>, LineFault>
    ensures { Gives result (behind_shape time words.entry) }
{
    let drive = words.numbered()?;
    let volume = words.word()?;
    let count = words.only_number(0, u64::MAX)?;
    Ok(ScriptLine::Restart {
        time,
        tail: Some(Tail {
            drive,
            volume: Name::parse(volume)?,
            count,
        }),
    })
}

pub fn drain(words: Words<'_>) -> Result<ScriptLine<'_>, LineFault>
    ensures { Gives result (shape commands.Drain words.entry) }
{
    words.end()?;
    Ok(ScriptLine::Drain)
}

pub fn status(words: Words<'_>) -> Result<ScriptLine<'_>, LineFault>
    ensures { Gives result (shape commands.Status words.entry) }
{
    words.end()?;
    Ok(ScriptLine::Console(ConsoleCmd::Status))
}

pub fn requests(words: Words<'_>) -> Result<ScriptLine<'_>, LineFault>
    ensures { Gives result (shape commands.Requests words.entry) }
{
    words.end()?;
    Ok(ScriptLine::Console(ConsoleCmd::Requests))
}

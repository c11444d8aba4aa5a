// The lines that set what the world is made with.
ghost use Rattle.std.specs.Prelude.{◌≡◌};
ghost use Rattle.sd_text.specs.Reading.{ReadsFirst};
ghost use Rattle.sd_script.specs.Reading.{Gives, call_at, shape, when_at};
ghost use Rattle.sd_script.specs.declared.command.Command.TheVariants as commands;

use crate::line::{LineFault, ScriptLine, Setting};
use sd_base::{
    LEAST_BLOCK_LIMIT, MOST_BLOCK, MOST_LANES, MOST_NUMBER, MOST_QUEUE, MOST_VOLUME, Name,
};
use sd_plan::{Call, DriveFail as Fail, When};
use sd_text::{BadField, Words};

/// The most bytes that a volume of a drive in memory may have room for.
const MOST_CAPACITY: u64 = 67_108_864;

pub fn block(words: Words<'_>) -> Result<ScriptLine<'_>, LineFault>
    ensures { Gives result (shape commands.Block words.entry) }
{
    let size = words.only_number(LEAST_BLOCK_LIMIT as u64, MOST_BLOCK as u64)?;
    Ok(ScriptLine::Set(Setting::Block(size as usize)))
}

pub fn volume(words: Words<'_>) -> Result<ScriptLine<'_>, LineFault>
    ensures { Gives result (shape commands.Volume words.entry) }
{
    let bytes = words.only_number(0, MOST_VOLUME)?;
    Ok(ScriptLine::Set(Setting::Volume(bytes)))
}

pub fn spool_limit(words: Words<'_>) -> Result<ScriptLine<'_>, LineFault>
    ensures { Gives result (shape commands.SpoolLimit words.entry) }
{
    let bytes = words.only_number(0, MOST_VOLUME)?;
    Ok(ScriptLine::Set(Setting::Spool(bytes)))
}

pub fn queue(words: Words<'_>) -> Result<ScriptLine<'_>, LineFault>
    ensures { Gives result (shape commands.Queue words.entry) }
{
    let blocks = words.only_number(1, MOST_QUEUE as u64)?;
    Ok(ScriptLine::Set(Setting::Queue(blocks as usize)))
}

pub fn time(words: Words<'_>) -> Result<ScriptLine<'_>, LineFault>
    ensures { Gives result (shape commands.Time words.entry) }
{
    let time = words.only_number(1, u64::from(MOST_NUMBER))?;
    Ok(ScriptLine::Set(Setting::Time(time as u32)))
}

#[tactic(auto, unfolding(crate::specs::Reading::host_shape))]
pub fn host(mut words: Words<'_>) -> Result<ScriptLine<'_>, LineFault>
    ensures { Gives result (shape commands.Host words.entry) }
{
    let host = words.word()?;
    words.end()?;
    Ok(ScriptLine::Set(Setting::Host(Name::parse(host)?)))
}

#[tactic(auto, unfolding(crate::specs::Reading::drive_shape))]
pub fn drive(mut words: Words<'_>) -> Result<ScriptLine<'_>, LineFault>
    ensures { Gives result (shape commands.Drive words.entry) }
{
    let media = words.word()?;
    let lanes = words.only_number(1, u64::from(MOST_LANES))?;
    Ok(ScriptLine::Set(Setting::Drive {
        media: Name::parse(media)?,
        lanes: lanes as u32,
    }))
}

#[tactic(auto, unfolding(crate::specs::Reading::capacity_shape))]
pub fn capacity(mut words: Words<'_>) -> Result<ScriptLine<'_>, LineFault>
    ensures { Gives result (shape commands.Capacity words.entry) }
{
    let drive = words.numbered()?;
    let bytes = words.only_number(0, MOST_CAPACITY)?;
    Ok(ScriptLine::Set(Setting::Capacity { drive, bytes }))
}

#[tactic(auto, unfolding(crate::specs::Reading::fail_shape))]
pub fn fail(mut words: Words<'_>) -> Result<ScriptLine<'_>, LineFault>
    ensures { Gives result (shape commands.Fail words.entry) }
{
    let drive = words.numbered()?;
    let call = next_call(&mut words)?;
    let nth = words.number(1, u64::MAX)?;
    let when = next_when(&mut words)?;
    words.end()?;
    Ok(ScriptLine::Set(Setting::Fail {
        drive,
        fail: Fail { call, nth, when },
    }))
}

/// The next field, a kind of call of a drive.
#[tactic(auto, unfolding(crate::specs::Reading::call_at))]
fn next_call(words: &mut Words<'_>) -> Result<Call, BadField>
    ensures { ReadsFirst (λ call. call) result words.new (call_at words.old) }
{
    match words.word()? {
        "create" => Ok(Call::Create),
        "load" => Ok(Call::Load),
        "len" => Ok(Call::Len),
        "read" => Ok(Call::Read),
        "append" => Ok(Call::Append),
        "sync" => Ok(Call::Sync),
        "cut" => Ok(Call::Cut),
        _ => Err(BadField),
    }
}

/// The next field, how a call fails.
#[tactic(auto, unfolding(crate::specs::Reading::when_at))]
fn next_when(words: &mut Words<'_>) -> Result<When, BadField>
    ensures { ReadsFirst (λ when. when) result words.new (when_at words.old) }
{
    match words.word()? {
        "before" => Ok(When::Before),
        "half" => Ok(When::Half),
        "after" => Ok(When::After),
        _ => Err(BadField),
    }
}

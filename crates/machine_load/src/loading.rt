//! The load itself.
ghost use Rattle.std.specs.Prelude.{◌≡◌, None, Ok, Err, IfOk, IfErr, IfSome, OnOk, option_map};
ghost use Rattle.std.specs.Io.KnownBytes.{Keeps};
ghost use Rattle.host_core.specs.Opening.{refusal_of};
ghost use Rattle.load_record.specs.Reading.{Says};
ghost use Rattle.host_devices.specs.Told.{Gains};
ghost use Rattle.machine_load.specs.Asked.{opened_as, task, ◌⇒◌};
ghost use Rattle.machine_load.specs.Beginning.{IsBeginning, SendsFew, asked_to_begin};
ghost use Rattle.machine_load.specs.Called.{IsAskedBefore};
ghost use Rattle.host_devices.specs.Devices.{line_told};
ghost use Rattle.machine_load.specs.GivenBack.{IsGivenBack};
ghost use Rattle.machine_load.specs.Load.{IsOpened, words_taken};
ghost use Rattle.machine_load.specs.LoadFault.{IsBeginningFault, IsOpeningFault, IsRefused};
ghost use Rattle.machine_load.specs.Looks.{AreFewLooks};
ghost use Rattle.machine_load.specs.Reporting.{IsLifeReported, IsLifeUnreported};
ghost use Rattle.machine_load.specs.Scene.{around_of, gone_of, keeper_of, scene, tells_of, IsLoaded, IsNotLoaded};
ghost use Rattle.machine_load.specs.Stubs.{AreFew};
ghost use Rattle.record_file.specs.OldRecord.{HoldsNoRecord};

use crate::beginning::{Beginning, BegunLife};
use crate::fault::LoadFault;
use crate::first_life::FirstLife;
use crate::going_on::go_on;
use crate::lived::Lived;
use crate::looks::{LooksRoom, look};
use crate::outcome::Outcome;
use crate::report::load_report;
use crate::stubs::bring_stubs;
use crate::surroundings::Surroundings;
use byte_io::write_and_flush;
use host_core::Progress;
use host_devices::Onlooker;
use load_record::{RecordError, read_record};
use record_file::holds_no_record;
use request_values::LoadOptions;
use std::alloc::Global;
use std::io::Write;
use tape_image::Plan;

/// Loads a plan through the console that the surroundings connect to, and reports how far that came.
///
/// The record of earlier lives is read first, and held from there on. A life that it ends at once, as
/// one whose start was typed before, is reported with no connection, and its record stays as it is.
/// Where each word is to be looked at again, no word counts as verified; a typed start does.
///
/// Else a connection is made, and samples of the words that count as verified are looked at, as
/// `look_at_samples` of the crate `sample_looks` has it; by a careful load, or a fast one, behind them the tape's highest
/// word, too, of which only an answer is asked. Where a sample does not stand the load ends as `Stale`, and
/// no word counts; where the looks stop before each word was read, as with a tape that does not fit, it ends as
/// `Unfinished`. Nothing is done behind them then, and the record is as it was.
///
/// Else the record is written anew with the words that count as verified. Then, where the load is to be fast,
/// stubs take words, as `bring_in` of the crate `stub_engine` has it. Where a device fails with them, turns are over, or
/// the machine lacks a word that one was to be typed into, the load stops so; for every other reason it goes on behind
/// the words that they verified.
///
/// Where the last stub verified nothing it may have been started all the same, and have written anywhere: an interrupt
/// came before its first instruction, or its HALT trapped. So samples of all words that count as verified by then are
/// looked at, those of the record and those of the stubs, before anything else is typed. Where one does not stand the load
/// ends as `Stale`, where the looks stop before, as `Unfinished`. Nothing is done behind them, and the record has what was
/// verified.
///
/// Else the host is driven for 10,000,000 turns at most. The stubs have the patience that the first looks left, each, and so
/// have the looks behind them and the host together. The report is of the host that the engine gives back, with the
/// characters and the mishaps of all looks and of the stubs, too. The line comes back, without which only a life ends that
/// was over before it began.
///
/// `ReadRecord`, `RecordInUse`, `Record` and `Connect` come with nothing reported and the record as it
/// was, `WriteRecord` right behind the looks, and before the connection, with the record as it was, where it
/// is protected, or would have to be written in place and a byte of it would become another one.
/// `WriteOutput` is a report that could not be written whole, and says whether the start was typed or may have been.
/// `Memory` comes only where a growth was refused, for the record or for the looks: before any key but theirs, with
/// nothing reported. Once its record is begun a load takes no memory but for stubs, and want of that ends these alone.
pub fn load<S: Surroundings, W: Write, O: Onlooker>(
    alloc: Global,
    plan: Plan,
    options: LoadOptions,
    around: &mut S,
    out: &mut W,
    onlooker: &O,
) -> Result<Outcome<S::Line>, LoadFault>
    ensures ok { IfOk result (IsLoaded (tells_of S.Surroundings S.Line.Line S.Keeper.Keep) (task plan options)
        (scene S.Surroundings W.Write around.old out.old ⇒ scene S.Surroundings W.Write around.new out.new)) }
    ensures err { IfErr result (IsNotLoaded (keeper_of S.Surroundings S.Keeper.Keep) (task plan options)
        (scene S.Surroundings W.Write around.old out.old ⇒ scene S.Surroundings W.Write around.new out.new)) }
{
    let (first, writable) = first_life(alloc, plan, options, around)?;
    let begun = match begin(alloc, first, options.fast, writable, around, onlooker)? {
        Beginning::Over(lived) => return report(lived, around, out),
        Beginning::Begun(begun) => begun,
    };
    let BegunLife {
        first,
        looks,
        room,
        mut line,
        mut keeper,
    } = begun;
    let stubs = bring_stubs(
        alloc,
        &first,
        options.fast,
        &mut line,
        &mut keeper,
        onlooker,
    );
    let gone = go_on(first, stubs, room, &mut line, &mut keeper, onlooker);
    onlooker.ends();
    around.end_record(keeper);
    let lived = Lived {
        core: gone.core,
        end: gone.end,
        looks: Some(looks),
        stubs,
        again: gone.again,
        line: Some(line),
    };
    report(lived, around, out)
}

// The life that begins with what the record says, and whether its own record may be begun over that one.
fn first_life<S: Surroundings>(
    alloc: Global,
    plan: Plan,
    options: LoadOptions,
    around: &mut S,
) -> Result<(FirstLife, bool), LoadFault>
    ensures opened { IfOk result (λ opened. IsOpened (task plan options)
        (around_of S.Surroundings around.old ⇒ around_of S.Surroundings around.new) opened.0 opened.1) }
    ensures fault { IfErr result (IsOpeningFault plan (around_of S.Surroundings around.old) (around_of S.Surroundings around.new)) }
    ensures same { Keeps (S.record_text around.old) (S.record_text around.new) }
    ensures asked { S.asked around.new ≡ S.asked around.old }
    ensures call { S.call around.new ≡ S.call around.old }
    ensures lines { S.lines around.new ≡ S.lines around.old }
{
    let record = around.read_record(alloc)?;
    let said = what_is_said(&record.text, &plan)?;
    let progress = taken(said, options.recheck);
    let first = FirstLife::new(options.careful, plan, progress, options.patience);
    let may_begin = record.may_become(alloc, first.plan(), first.verified())?;
    Ok((first, may_begin))
}

// What a record's text says of a plan's load. A file that was never a record is none.
fn what_is_said(text: &[u8], plan: &Plan) -> Result<Progress, RecordError>
    ensures said { IfOk result (λ said. Says plan.now text.now (Ok said)) }
    ensures ours { OnOk result (HoldsNoRecord text.now → ⊥) }
    ensures accepted { IfOk result (λ said. refusal_of plan.now said.verified said.going ≡ None) }
    ensures refused { IfErr result (IsRefused plan.now text.now) }
{
    if holds_no_record(text) {
        return Err(RecordError::NotARecord);
    }
    read_record(text, plan)
}

// The progress that a life begins with: what was said, or no word of it, where all are to be looked at
// again and the start was not typed.
fn taken(said: Progress, recheck: bool) -> Progress
    ensures words { result.verified ≡ words_taken recheck said }
    ensures mark { result.going ≡ said.going }
{
    if recheck && !said.going {
        Progress {
            verified: 0,
            ..said
        }
    } else {
        said
    }
}

// The beginning of a life, once it has opened. One that is not over wants a record that may be written, and a
// connection, over which it looks at words of its record, and at the tape's highest where it is careful or fast, before
// that is begun anew. An onlooker is told of it, but of no look.
fn begin<S: Surroundings, O: Onlooker>(
    alloc: Global,
    first: FirstLife,
    fast: bool,
    writable: bool,
    around: &mut S,
    onlooker: &O,
) -> Result<Beginning<S::Line, S::Keeper>, LoadFault>
    ensures begun { IfOk result (IsBeginning (tells_of S.Surroundings S.Line.Line S.Keeper.Keep)
        (opened_as first fast writable) (around_of S.Surroundings around.old ⇒ around_of S.Surroundings around.new)) }
    ensures few { IfOk result SendsFew }
    ensures fault { IfErr result (IsBeginningFault (opened_as first fast writable) (gone_of S.Surroundings around.old ⇒ gone_of S.Surroundings around.new)) }
    ensures asked { IfOk result (λ beginning. Gains (S.asked around.old) (S.asked around.new) (asked_to_begin (S.call around.old) beginning)) }
    ensures asked_in_vain { IfErr result (IsAskedBefore (S.call around.old) (S.asked around.old) (S.asked around.new)) }
    ensures lines { OnOk result (S.lines around.new ≡ S.lines around.old) }
{
    if let Some(end) = first.end() {
        return Ok(Beginning::Over(Lived::at_once(first, end)));
    }
    if !writable {
        return Err(LoadFault::WriteRecord);
    }
    let room = LooksRoom::new(alloc)?;
    let room_behind = LooksRoom::new(alloc)?;
    let mut line = around.connect()?;
    onlooker.begins(first.verified(), first.plan().words().len() as u32);
    let highest = first.asks_for_highest(fast);
    let looks = look(&first, highest, room, &mut line);
    let first = first.behind(looks);
    if let Some(end) = looks.hindrance() {
        onlooker.ends();
        return Ok(Beginning::Over(Lived {
            core: first.host(),
            end,
            looks: Some(looks),
            stubs: None,
            again: None,
            line: Some(line),
        }));
    }
    match around.begin_record(alloc, first.plan(), first.verified()) {
        Ok(keeper) => Ok(Beginning::Begun(BegunLife {
            first,
            looks,
            room: room_behind,
            line,
            keeper,
        })),
        Err(fault) => {
            onlooker.ends();
            around.let_go(line);
            Err(LoadFault::from(fault))
        }
    }
}

// Reports a life that is over. Where that fails its line is given back.
fn report<S: Surroundings, W: Write>(
    lived: Lived<S::Line>,
    around: &mut S,
    out: &mut W,
) -> Result<Outcome<S::Line>, LoadFault>
    requires few { IfSome lived.looks AreFewLooks × (IfSome lived.stubs AreFew × IfSome lived.again AreFewLooks) }
    ensures ok { IfOk result (IsLifeReported S.Line.Line lived
        (scene S.Surroundings W.Write around.old out.old ⇒ scene S.Surroundings W.Write around.new out.new)) }
    ensures err { IfErr result (IsLifeUnreported S.Line.Line lived
        (scene S.Surroundings W.Write around.old out.old ⇒ scene S.Surroundings W.Write around.new out.new)) }
{
    let text = load_report(
        &lived.core,
        lived.looks,
        lived.stubs,
        lived.again,
        lived.end,
    );
    match write_and_flush(out, &text) {
        Ok(()) => Ok(lived.outcome()),
        Err(_) => {
            let marked = lived.core.progress().going;
            give_back(around, lived.line);
            Err(LoadFault::WriteOutput { marked })
        }
    }
}

// Gives a line back, where there is one.
fn give_back<S: Surroundings>(around: &mut S, line: Option<S::Line>)
    ensures lines { IsGivenBack (S.lines around.old) (S.lines around.new) (option_map (line_told S.Line.Line) line) }
    ensures steps { S.steps around.new ≡ S.steps around.old }
    ensures text { S.record_text around.new ≡ S.record_text around.old }
    ensures asked { S.asked around.new ≡ S.asked around.old }
    ensures disk { S.disk around.new ≡ S.disk around.old }
{
    if let Some(line) = line {
        around.let_go(line);
    }
}

//! The top call: the words, the input, the work of the command, the text.
ghost use Rattle.hsvi_io.specs.Bytes.{Wrote};
ghost use Rattle.hsvi_io.specs.Causes.{Rose};
ghost use Rattle.osposg_cli.specs.Answer.{Answers, AnswersAreOne, AnswersInput, AsksNoSearch, Ends, InputsAreAnswered, IsDue};
ghost use Rattle.osposg_cli.specs.Answer.{IsEarly, IsGiven, IsReadToEnd, IsUntouched, IsWork, ReadsInput};
ghost use Rattle.osposg_cli.specs.Answer.{SolvedIsChecked, WorkIsDefined, WritesNothing, WroteOne};
ghost use Rattle.osposg_cli.specs.Check.{CheckPromises};
ghost use Rattle.osposg_cli.specs.Close.{ClosePromises};
ghost use Rattle.osposg_cli.specs.Defined.{IsAnswered};
ghost use Rattle.osposg_cli.specs.Floor.{FloorPromises};
ghost use Rattle.osposg_cli.specs.Generate.{GenPromises};
ghost use Rattle.osposg_cli.specs.Inputs.{most_input};
ghost use Rattle.osposg_cli.specs.Show.{ShowPromises};
ghost use Rattle.osposg_cli.specs.Simulate.{SimulatePromises};
ghost use Rattle.osposg_cli.specs.Solve.{MakesCertificate, SolvePromises};
ghost use Rattle.osposg_cli.specs.Summary.{SummaryPromises};
ghost use Rattle.osposg_cli.specs.Words.{IsWithinLimits, gap_data, named};
ghost use Rattle.osposg_cli.specs.declared.words.Gap.{Gap};
ghost use Rattle.osposg_cli.specs.declared.words.Command.TheVariants.{Check, Close, Floor, Gen, Show, Simulate, Solve, Summary};
ghost use Rattle.simulate.specs.declared.parts.Rival.{Rival};
ghost use Rattle.std.specs.Option.{option_map};
ghost use Rattle.std.specs.Prelude.{Option, IfErr, IfOk, IfSome, IsErrOf, List, OnOk, Some, ℕ, length, ◌≡◌, ◌≤◌};

use crate::answer::Answer;
use crate::inputs::MOST_INPUT;
use crate::refusals::words_refused;
use crate::status::Status;
use crate::words::{Command, parse};
use crate::{check, close, floor, generate, plays, show, solve, summary};
use hsvi_io::{ReadEnd, Sink, Source, read_all, write_all};
use std::alloc::{AllocError, Global};

/// Runs the command that the words name, without the program's own name. The whole text is made before its first byte
/// is written.
pub fn run<I: Source, O: Sink>(
    alloc: Global,
    words: &[String],
    input: &mut I,
    output: &mut O,
) -> Status
    // A text is written whole, or a front of it at a fault of the sink, or nothing.
    ensures ends { Ends (named words.now) (I.left input.old) (I.left input.new)
        (O.room output.old) (O.written output.old) (O.written output.new) result }
    // An answer of a command that reads says that the input was read to its end.
    ensures read { ReadsInput (named words.now) → AnswersInput result →
        IsReadToEnd (I.left input.old) (I.left input.new) }
    // Faults come only where the count of that very object rose.
    ensures read_fault { result ≡ Status.ReadFault → Rose (I.faults input.old) (I.faults input.new) }
    ensures write_fault { result ≡ Status.WriteFault → Rose (O.faults output.old) (O.faults output.new) }
    ensures reads_later { I.faults input.old ≤ I.faults input.new }
    ensures writes_later { O.faults output.old ≤ O.faults output.new }
    // A run ends at the first fault: at any other end no read, and no write, has failed.
    ensures reads_passed { ¬ (result ≡ Status.ReadFault) → I.faults input.new ≡ I.faults input.old }
    ensures writes_passed { ¬ (result ≡ Status.WriteFault) → O.faults output.new ≡ O.faults output.old }
    // Where nothing is written, the sink is untouched.
    ensures unwritten { WritesNothing result →
        IsUntouched (O.written output.old) (O.written output.new) (O.faults output.old) (O.faults output.new) }
    // Where the words name no command, or one that does not read, the source is untouched.
    ensures unread { ¬ (ReadsInput (named words.now)) →
        IsUntouched (I.left input.old) (I.left input.new) (I.faults input.old) (I.faults input.new) }
    // Where no count rose, the answer to the input was written whole; only want of memory may come in its place, and
    // then nothing is written.
    ensures complete { IfSome (I.left input.old) (λ bytes.
        ¬ (Rose (I.faults input.old) (I.faults input.new)) → ¬ (Rose (O.faults output.old) (O.faults output.new)) →
        IsGiven (named words.now) bytes (O.room output.old) (O.written output.old) (O.written output.new) result) }
    // Where no search is asked for, every input has an answer.
    ensures answered { AsksNoSearch (named words.now) →
        IfSome (I.left input.old) (λ bytes. IsAnswered (Answers (named words.now) bytes)) }
    // What `floor` promises: the printed action earns the printed bound less the tail, against every plan of the
    // informed player.
    ensures floor_earns { result ≡ Status.Done → named words.now ≡ Some Floor → IfSome (I.left input.old)
        (λ bytes. WroteOne (FloorPromises bytes) (O.room output.old) (O.written output.old) (O.written output.new)) }
    // What a yes of `check` promises: the bytes spell a game and a certificate, whose bounds are printed, and both
    // halves hold of it.
    ensures check_proves { result ≡ Status.Done → named words.now ≡ Some Check → IfSome (I.left input.old)
        (λ bytes. WroteOne (CheckPromises bytes) (O.room output.old) (O.written output.old) (O.written output.new)) }
    // What `show` promises: the text that is written spells the game that was read, and is shown as it is.
    ensures show_spells { result ≡ Status.Done → named words.now ≡ Some Show → IfSome (I.left input.old)
        (λ bytes. WroteOne (ShowPromises bytes) (O.room output.old) (O.written output.old) (O.written output.new)) }
    // What `gen` promises: the text that is written spells the game of the number and the size, and is what `show`
    // writes of itself.
    ensures gen_spells { (number size : ℕ) → result ≡ Status.Done → named words.now ≡ Some (Gen number size) →
        WroteOne (GenPromises number size) (O.room output.old) (O.written output.old) (O.written output.new) }
    // What the summary of `gen` promises: its bounds are those of a certificate for the game of the number and the size,
    // which has the tolerance of the words, is closed exactly at Done, and both halves hold of it.
    ensures gen_proves { (number size trials : ℕ) (gap : Gap) →
        named words.now ≡ Some (Summary number size trials gap) → MakesCertificate result →
        WroteOne (SummaryPromises number size (gap_data gap) result)
        (O.room output.old) (O.written output.old) (O.written output.new) }
    // What the certificate of `solve` promises: it is for the game that was read, has the tolerance of the words, is
    // closed exactly at Done, and both halves hold of it.
    ensures solve_proves { (trials : ℕ) (gap : Gap) → named words.now ≡ Some (Solve trials gap) →
        MakesCertificate result → IfSome (I.left input.old) (λ bytes.
        WroteOne (SolvePromises (gap_data gap) result bytes)
        (O.room output.old) (O.written output.old) (O.written output.new)) }
    // What a play of `simulate` promises: the bytes spell a game and a certificate that stands, and the text is that of
    // a play of the certificate's own plans, of positive weight, with its gain.
    ensures simulate_plays { (seed stages : ℕ) (rival : Rival) → result ≡ Status.Done →
        named words.now ≡ Some (Simulate seed stages rival) → IfSome (I.left input.old)
        (λ bytes. WroteOne (SimulatePromises seed stages rival bytes)
        (O.room output.old) (O.written output.old) (O.written output.new)) }
    // What the certificate of `close` promises: it is for the game that was read, its bounds are no worse than those of
    // the certificate that was read, it has the tolerance of the words or else that certificate's, is closed exactly at
    // Done, and both halves hold of it.
    ensures close_proves { (rounds : ℕ) (gap : Option Gap) → named words.now ≡ Some (Close rounds gap) →
        MakesCertificate result → IfSome (I.left input.old) (λ bytes.
        WroteOne (ClosePromises (option_map gap_data gap) result bytes)
        (O.room output.old) (O.written output.old) (O.written output.new)) }
{
    law_answers();
    floor::law_floor();
    solve::law_solve();
    check::law_check();
    close::law_close();
    show::law_show();
    generate::law_generate();
    plays::law_simulate();
    summary::law_summary();
    match answer_to(alloc, words, input) {
        Ok(answer) => match write_all(output, &answer.text) {
            Ok(()) => answer.status,
            Err(_) => Status::WriteFault,
        },
        Err(status) => status,
    }
}

/// A law: the answer of each command has a text, and that of each but `close` is one, so to such a command an input has
/// one answer at most; without a search it has one. To what `solve` wrote for a game, behind a text of the game to its
/// `end` line, `check` answers yes.
pub fn law_answers()
    ensures work { WorkIsDefined }
    ensures one { AnswersAreOne }
    ensures some { InputsAreAnswered }
    ensures checked { SolvedIsChecked }
{
    game_text::law_any_rest();
    floor::law_floor();
    solve::law_solve();
    check::law_check();
    close::law_close();
    show::law_show();
    generate::law_generate();
    plays::law_simulate();
    summary::law_summary();
}

/// What is to be written, or how the run ends before there is a text.
fn answer_to<I: Source>(alloc: Global, words: &[String], input: &mut I) -> Result<Answer, Status>
    ensures due { IfOk result (λ answer. IsDue (named words.now) (I.left input.old) answer.status answer.text.items) }
    ensures within { OnOk result (IfSome (named words.now) IsWithinLimits) }
    ensures read { OnOk result (ReadsInput (named words.now) → IsReadToEnd (I.left input.old) (I.left input.new)) }
    ensures early { IfErr result (λ status. IsEarly (named words.now) (I.left input.old) (I.left input.new) status) }
    ensures read_fault { IsErrOf result Status.ReadFault → Rose (I.faults input.old) (I.faults input.new) }
    ensures reads_later { I.faults input.old ≤ I.faults input.new }
    ensures reads_passed { ¬ (IsErrOf result Status.ReadFault) → I.faults input.new ≡ I.faults input.old }
    ensures unread { ¬ (ReadsInput (named words.now)) →
        IsUntouched (I.left input.old) (I.left input.new) (I.faults input.old) (I.faults input.new) }
{
    law_answers();
    let command = match parse(alloc, words) {
        Ok(Some(command)) => command,
        Ok(None) => return words_refused(alloc).map_err(|_| Status::OutOfMemory),
        Err(_) => return Err(Status::OutOfMemory),
    };
    if !command.reads_input() {
        return work(alloc, command, &[]).map_err(|_| Status::OutOfMemory);
    }
    match read_all(alloc, input, MOST_INPUT) {
        Ok(bytes) => work(alloc, command, &bytes).map_err(|_| Status::OutOfMemory),
        Err(ReadEnd::Fault) => Err(Status::ReadFault),
        Err(ReadEnd::TooLong) => Err(Status::TooLong),
        Err(ReadEnd::OutOfMemory) => Err(Status::OutOfMemory),
    }
}

/// The answer of a command to its input, which counts for nothing where the command reads none.
fn work(alloc: Global, command: Command, bytes: &[u8]) -> Result<Answer, AllocError>
    requires bytes { length bytes.now ≤ most_input }
    requires command { IsWithinLimits command }
    ensures { IfOk result (λ answer. IsWork command bytes.now answer.status answer.text.items) }
{
    match command {
        Command::Floor => floor::work(alloc, bytes),
        Command::Solve { trials, gap } => solve::work(alloc, trials, &gap.fraction(), bytes),
        Command::Check => check::work(alloc, bytes),
        Command::Close { rounds, gap } => close::work(alloc, rounds, gap, bytes),
        Command::Show => show::work(alloc, bytes),
        Command::Gen { number, size } => generate::work(alloc, number, size),
        Command::Simulate {
            seed,
            stages,
            rival,
        } => plays::work(alloc, seed, stages, rival, bytes),
        Command::Summary {
            number,
            size,
            trials,
            gap,
        } => summary::work(alloc, number, size, trials, &gap.fraction()),
    }
}

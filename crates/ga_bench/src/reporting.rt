//! Faults on standard error, and the exit statuses that they give.
ghost use Rattle.std.specs.Prelude.{◌≡◌};
ghost use Rattle.ga_jobs.specs.Engine.{status_of};
ghost use Rattle.ga_bench.specs.Status.{IsStatusOf};

use crate::saved_files::PutFault;
use clap::Error;
use ga_command_line::LineError;
use ga_diagnostics::{Lines, faults_message};
use ga_input::{InputFault, ServeError, Writes, write_output};
use ga_jobs::{Ending, status};
use ga_messages::{Form, ShownText, shown_lines};
use std::alloc::AllocError;
use std::io;
use std::io::Write;

/// Reports the fault of an outcome, or the expectations that aren't met, if it has some. Answers
/// the exit status.
pub fn reported<Rt: Eprint>(rt: &Rt, outcome: &Result<Ending, ServeError>) -> u8
    ensures { result ≡ status_of outcome.now }
{
    match outcome {
        Err(fault) => report_alone(rt, fault),
        Ok(Ending::Failed(unmet)) => {
            let _ = eprintln!(rt; "ga-bench: {unmet}");
        }
        Ok(_) => {}
    }
    status(outcome)
}

/// Reports the fault of an outcome for bytes whose lines were written there, if it has one. Answers
/// the exit status.
pub fn reported_in<Rt: AllocGlobal + Print + Eprint>(
    rt: &Rt,
    lines: &Lines<'_>,
    form: Form,
    input: &[u8],
    outcome: &Result<Ending, ServeError>,
) -> u8
    ensures { result ≡ status_of outcome.now }
{
    if let Err(fault) = outcome {
        report_in(rt, lines, form, input, fault);
    }
    status(outcome)
}

/// Reports the fault of bytes whose lines were written there: if it has a place, as compilers do on
/// standard error, or as JSON on standard output; of source text all faults.
/// Without memory for that it is reported as one of standard input.
fn report_in<Rt: AllocGlobal + Print + Eprint>(
    rt: &Rt,
    lines: &Lines<'_>,
    form: Form,
    input: &[u8],
    fault: &ServeError,
) {
    match (faults_message(rt.alloc(), lines, form, input, fault), fault) {
        (Ok(Some(text)), _) => print_in(rt, form, text.as_str()),
        (_, ServeError::Input(_)) if lines.name() != "-" => {
            report_on_file(rt, lines.name(), fault);
        }
        _ => report_alone(rt, fault),
    }
}

/// Writes messages where those of a form go. If they can't be written to standard output, that is
/// reported.
fn print_in<Rt: Print + Eprint>(rt: &Rt, form: Form, text: &str) {
    match form {
        Form::Text => {
            let _ = eprint!(rt; "{text}");
        }
        Form::Json => {
            let written = write_output(
                &mut io::writer(rt),
                text.as_bytes(),
                &mut Writes::default(),
            );
            if let Err(fault) = written {
                report_alone(rt, &fault);
            }
        }
    }
}

/// Reports a fault by itself.
fn report_alone<Rt: Eprint>(rt: &Rt, fault: &ServeError) {
    // If this can't be written either, the status still reports it.
    let _ = eprintln!(rt; "ga-bench: {fault}");
}

/// Reports why the file with a name isn't replaced, behind the name. Answers the exit status.
pub fn report_on_replaced<Rt: AllocGlobal + Eprint>(rt: &Rt, name: &str, fault: PutFault) -> u8 {
    match fault {
        PutFault::Fault(fault) => {
            report_on_file(rt, name, &fault);
            status(&Err(fault))
        }
        PutFault::Write(error) => {
            let fault = ServeError::Write;
            match ShownText::of_name(rt.alloc(), name) {
                Ok(shown) => {
                    let _ = eprintln!(rt; "ga-bench: {shown}: {fault}, {error}");
                }
                Err(_) => report_alone(rt, &fault),
            }
            status(&Err(fault))
        }
    }
}

/// Reports the fault of the file with a name, behind the name.
pub fn report_on_file<Rt: AllocGlobal + Eprint>(rt: &Rt, name: &str, fault: &ServeError) {
    match ShownText::of_name(rt.alloc(), name) {
        Ok(shown) => {
            let _ = eprintln!(rt; "ga-bench: {shown}: {fault}");
        }
        Err(_) => {
            let _ = eprintln!(rt; "ga-bench: {fault}");
        }
    }
}

/// Reports why a command line names no job, or prints the help or version that it asks for. Answers
/// the exit status.
pub fn refuse<Rt: AllocGlobal + Print + Eprint>(rt: &Rt, error: LineError) -> u8
    ensures { IsStatusOf error result }
{
    let fault = match error {
        LineError::Memory => ServeError::Memory,
        LineError::Parse(error) => {
            if error.use_stderr() {
                print_refusal(rt, &error);
                return 2;
            }
            match error.print(rt) {
                Ok(()) => return 0,
                Err(_) => ServeError::Write,
            }
        }
    };
    let _ = eprintln!(rt; "ga-bench: {fault}");
    status(&Err(fault))
}

/// Prints why a command line is refused. Its words may have characters that a terminal would obey,
/// which are blanks, if there is memory for that.
fn print_refusal<Rt: AllocGlobal + Print + Eprint>(rt: &Rt, error: &Error) {
    let alloc = rt.alloc();
    let shown = match format!(in alloc; "{error}") {
        Ok(text) => shown_lines(alloc, text.as_str()),
        Err(_) => Err(AllocError),
    };
    match shown {
        Ok(text) => {
            let _ = eprint!(rt; "{text}");
        }
        Err(AllocError) => {
            let _ = error.print(rt);
        }
    }
}

/// Refuses a command line whose FILE isn't there. Answers the exit status.
pub fn refuse_missing<Rt: AllocGlobal + Eprint>(rt: &Rt, name: &str) -> u8 {
    report_on_file(rt, name, &ServeError::Input(InputFault::NoFile));
    2
}

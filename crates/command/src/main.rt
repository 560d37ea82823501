//! `vindaskot`: any upload, in words.
#![tactic(auto)]

mod branch;
mod compare;
mod explain;
mod help;
mod plain_form;
mod salvaged;
mod show;
mod slots;

use arguments::{Asked, Operands, Request, Run};
use conversions::{captured, sheets};
use host::failure::Failure;
use host::{failure, source, written};
use lookup::types;
use report::{Tally, Upload};
use std::alloc::{AllocError, Global};
use std::env;
use std::env::VarError;
use std::io::{BufWriter, ErrorKind, IsTerminal, Write};
use std::process::ExitCode;
use wording::Grouped;

fn main(rt: HostRuntime) -> ExitCode {
    let end = run(&rt);
    if let Err(failure) = &end {
        failure.tell(&rt);
    }
    ExitCode::from(failure::status(&end))
}

// Does what is asked; whether nothing was refused.
fn run(rt: &HostRuntime) -> Result<bool, Failure> {
    let line = words(rt)?;
    let line = texts(rt.alloc(), line.as_slice())?;
    let request = request_of(rt.alloc(), line.as_slice())?;
    let mut out = BufWriter::with_capacity(rt.alloc(), 65536, rt.stdout())?;
    let end = answer(rt, &request, &mut out);
    let printed = out.flush();
    ended(end, printed.map_err(Failure::Output))
}

// The words of the command line, which are text.
fn words(rt: &HostRuntime) -> Result<Vec<String>, Failure> {
    let alloc = rt.alloc();
    match env::args(rt) {
        Ok(words) => Ok(words.collect(alloc)?),
        Err(why) if why.kind() == ErrorKind::InvalidData => Err(Failure::of_usage(
            String::from_str(
                alloc,
                "a word of the command line is not UTF-8; a file of such a name can be read from standard input",
            ),
        )),
        Err(_) => Err(Failure::Memory),
    }
}

// Those behind the program's name.
fn texts<'a>(alloc: Global, line: &'a [String]) -> Result<Vec<&'a str>, Failure> {
    let mut texts = Vec::new(alloc);
    for word in line.iter().skip(1) {
        texts.push(word.as_str()).map_err(AllocError::from)?;
    }
    Ok(texts)
}

fn request_of<'a>(alloc: Global, line: &'a [&'a str]) -> Result<Request<'a>, Failure> {
    match arguments::read(line) {
        Ok(request) => Ok(request),
        Err(why) => Err(Failure::of_usage(format!(in alloc; "{why}"))),
    }
}

// What was printed before a refusal belongs to it; that it can't be written goes before. But what is said of a file that
// was written does not depend on whether anybody reads it.
fn ended(end: Result<bool, Failure>, printed: Result<(), Failure>) -> Result<bool, Failure> {
    match printed {
        Ok(()) => end,
        Err(gone) => match end {
            Err(Failure::Dropped(why)) if gone.is_unread() => Err(Failure::Dropped(why)),
            _ => Err(gone),
        },
    }
}

fn answer<W: Write>(rt: &HostRuntime, request: &Request<'_>, out: &mut W) -> Result<bool, Failure> {
    match request {
        Request::Help => out.write_all(help::HELP.as_bytes())?,
        Request::Version => writeln!(out, "vindaskot 0.1.0")?,
        Request::Room { length } => slots::room(rt.alloc(), *length, out)?,
        Request::Run(run) => return answer_of_a_file(rt, run, out),
        Request::Captures { file, form, make } => captured::make(rt, file, *form, *make, out)?,
        Request::SheetExport { file, form } => sheets::export(rt, file, *form, out)?,
        Request::SheetImport { file, to } => sheets::import(rt, file, to)?,
    }
    Ok(true)
}

fn answer_of_a_file<W: Write>(
    rt: &HostRuntime,
    run: &Run<'_>,
    out: &mut W,
) -> Result<bool, Failure> {
    if let Asked::Salvage { to } = &run.asked {
        salvaged::is_free(rt, to, run.file)?;
    }
    let source = source::read(rt, run.file, run.form, run.mode)?;
    answer_of_an_upload(rt, run, &source.upload(), out)
}

fn answer_of_an_upload<W: Write>(
    rt: &HostRuntime,
    run: &Run<'_>,
    upload: &Upload<'_>,
    out: &mut W,
) -> Result<bool, Failure> {
    let alloc = rt.alloc();
    match &run.asked {
        Asked::Find { name, attribute } => done(lookup::find(alloc, upload, name, *attribute, out)),
        Asked::Show { name } => done(show::show(alloc, upload, name, is_coloured(rt), out)),
        Asked::Why { name } => done(explain::explain(alloc, upload, name, out)),
        Asked::Branch { text, json } => done(branch::branch(alloc, upload, text, *json, out)),
        Asked::List { sorted, json } => list(alloc, upload, *sorted, *json, out),
        Asked::Check => check(upload, out),
        Asked::Plain => plain_form::plain(alloc, upload, out),
        Asked::Compare { with, json } => compare_with(rt, run, upload, with, *json, out),
        Asked::Bind { types, paths, json } => bind_paths(
            rt, run, upload, types, *paths, *json, out,
        ),
        Asked::Salvage { to } => done(salvaged::salvage(rt, upload, to, out)),
        Asked::Types { name, json } => done(types::print(alloc, upload, *name, *json, out)),
    }
}

// Of what ends only when all is done.
fn done(end: Result<(), Failure>) -> Result<bool, Failure> {
    match end {
        Ok(()) => Ok(true),
        Err(why) => Err(why),
    }
}

fn check<W: Write>(upload: &Upload<'_>, out: &mut W) -> Result<bool, Failure> {
    Ok(report::check::check(upload, out)?.refused == 0)
}

fn compare_with<W: Write>(
    rt: &HostRuntime,
    run: &Run<'_>,
    upload: &Upload<'_>,
    with: &str,
    as_json: bool,
    out: &mut W,
) -> Result<bool, Failure> {
    let other = source::read(rt, with, run.form, run.mode)?;
    compare::compare(rt.alloc(), upload, &other.upload(), as_json, out)
}

fn bind_paths<W: Write>(
    rt: &HostRuntime,
    run: &Run<'_>,
    upload: &Upload<'_>,
    types: &str,
    paths: Operands<'_>,
    as_json: bool,
    out: &mut W,
) -> Result<bool, Failure> {
    let types = source::read(rt, types, run.form, run.mode)?;
    let paths = paths.to_vec(rt.alloc())?;
    addresses::bind(
        rt.alloc(),
        upload,
        &types.upload(),
        paths.as_slice(),
        as_json,
        out,
    )
}

// A list, and how it ends: entries that were refused stand in it, and one of many is easily overlooked.
fn list<W: Write>(
    alloc: Global,
    upload: &Upload<'_>,
    sorted: bool,
    as_json: bool,
    out: &mut W,
) -> Result<bool, Failure> {
    let tally = write_list(alloc, upload, sorted, as_json, out)?;
    unless_refused(alloc, upload, tally)
}

fn write_list<W: Write>(
    alloc: Global,
    upload: &Upload<'_>,
    sorted: bool,
    as_json: bool,
    out: &mut W,
) -> Result<Tally, Failure> {
    if sorted {
        return branch::sorted(alloc, upload, as_json, out);
    }
    if as_json {
        return Ok(report::list::list(upload, out)?);
    }
    Ok(report::table::list(upload, out)?)
}

fn unless_refused(alloc: Global, upload: &Upload<'_>, tally: Tally) -> Result<bool, Failure> {
    if tally.refused == 0 {
        return Ok(true);
    }
    let (refused, all) = (Grouped(tally.refused), Grouped(tally.all()));
    Err(Failure::of_refusal(format!(in alloc; "{upload}: refused entries: {refused} of {all}")))
}

// Colour is for a terminal that can show it, and for nobody who has said NO_COLOR (no-color.org), be it text or not.
fn is_coloured(rt: &HostRuntime) -> bool {
    let is_plain = match env::var(rt, "NO_COLOR") {
        Ok(said) => !said.is_empty(),
        Err(VarError::NotPresent) => false,
        Err(_) => true,
    };
    let is_dumb = match env::var(rt, "TERM") {
        Ok(said) => said.as_str() == "dumb",
        Err(_) => false,
    };
    rt.stdout().is_terminal() && !is_plain && !is_dumb
}

//! Searches files, one after the other.
ghost use Rattle.std.specs.Prelude.{◌≡◌, ◌==◌, Bool, true, false, Result, Ok, IfErr, IfOk, OnOk, codes, length, map, string_bytes};
ghost use Rattle.grep_cli.specs.Flags.{reads_found, reads_named};
ghost use Rattle.hirgrep_main.specs.Decisions.{selects_none};
ghost use Rattle.hirgrep_main.specs.Readings.{prints_summary};
ghost use Rattle.grep_cli.specs.declared.options.flags.Directories.TheVariants.{Reject, Skip};
ghost use Rattle.hirgrep_main.specs.declared.searching.Named.TheVariants.{Input, File, Folder, Device};
ghost use Rattle.grep_cli.specs.declared.files.walking.Kind.TheVariants.{Link, Device as FoundDevice, File as FoundFile, Folder as FoundFolder};
ghost use Rattle.grep_cli.specs.Selecting.{depth_in, enters, selection, skips_found};
ghost use Rattle.grep_cli.specs.Entries.{is_folder};
ghost use Rattle.hirgrep_main.specs.Walking.{SearchesNames, Tries, default_paths, is_left_out, leaves_out, may_be_several, named_by};
ghost use Rattle.hirgrep_main.specs.Walking.{searched_paths, with_listed_folders};
ghost use Rattle.hirgrep_main.specs.Outcomes.{Continues, with_failure};

use crate::files::opening::{search_file, search_input};
use crate::options::asked::Asked;
use crate::options::decisions::{prints_summary, selects_none};
use crate::results::outcome::Outcome;
use crate::task::Task;
use grep_cli::{
    Directories, IgnoreFiles, Kind, Selection, hides_controls, is_folder, is_named, kind_of,
    output_file, prints_json, push_folder, push_found, reads_found, reads_named, shown_name,
    size_at,
};
use line_search::Finder;
use std::alloc::{AllocError, Global};
use std::io;
use std::io::IsTerminal;
use std::rt::Runtime;

/// The files that a command line names.
#[derive(Clone, Copy)]
pub struct Files<'a> {
    /// Their names; `-` is standard input. If there is none, the current folder or standard input is searched.
    pub names: &'a [&'a str],
    /// The name that is printed for standard input.
    pub input_name: &'a str,
    /// Which files are searched.
    pub selection: &'a Selection,
}

/// Searches a device, a pipe or a socket, if it is to be read.
fn search_device(
    rt: &HostRuntime,
    finder: &mut Finder<'_>,
    task: Task<'_>,
    outcome: &mut Outcome,
    path: &str,
    is_read: bool,
)
    ensures skipped { is_read ≡ false → outcome.new ≡ outcome.old }
    ensures tried { is_read ≡ true → Tries outcome.old outcome.new }
    ensures continues { Continues outcome.old outcome.new }
{
    if is_read {
        search_file(rt, finder, task, outcome, path);
    }
}

/// Searches something that was found in a folder, if its kind is known. The entries of a folder are put before the paths that are left.
/// `root` is the path at which the search began.
fn search_kind(
    rt: &HostRuntime,
    finder: &mut Finder<'_>,
    task: Task<'_>,
    outcome: &mut Outcome,
    left: &mut Vec<String>,
    root: &str,
    path: &str,
    kind: io::Result<Kind>,
) -> Result<(), AllocError>
    ensures unread { IfErr kind (λ _. outcome.new ≡ with_failure outcome.old) }
    ensures link { kind ≡ Ok Link → outcome.new ≡ outcome.old }
    ensures device { kind ≡ Ok FoundDevice → reads_found task.entry.asked.now.devices ≡ false → outcome.new ≡ outcome.old }
    ensures read { kind ≡ Ok FoundDevice → reads_found task.entry.asked.now.devices ≡ true → Tries outcome.old outcome.new }
    ensures file { kind ≡ Ok FoundFile → Tries outcome.old outcome.new }
    ensures deep { kind ≡ Ok FoundFolder → enters task.entry.selection.now.max_depth (depth_in root.now path.now) ≡ false
        → (outcome.new ≡ outcome.old) × (left.new ≡ left.old) }
    ensures continues { Continues outcome.old outcome.new }
{
    match kind {
        Ok(Kind::File) => search_file(rt, finder, task, outcome, path),
        Ok(Kind::Folder) => return push_found(
            rt,
            task.folders(),
            &mut outcome.failed,
            left,
            root,
            path,
        ),
        Ok(Kind::Link) => {}
        Ok(Kind::Device) => {
            let is_read = reads_found(task.asked.devices);
            search_device(rt, finder, task, outcome, path, is_read);
        }
        Err(e) => outcome.fail(rt, task.asked, shown_name(task.bare, path), e),
    }
    Ok(())
}

/// Searches something of this kind and size that was found in a folder, unless the options leave it out. The ignore files of folders said
/// this of it.
fn search_unless_skipped(
    rt: &HostRuntime,
    finder: &mut Finder<'_>,
    task: Task<'_>,
    outcome: &mut Outcome,
    left: &mut Vec<String>,
    root: &str,
    path: &str,
    said: Option<bool>,
    size: Option<u64>,
    kind: io::Result<Kind>,
) -> Result<(), AllocError>
    ensures skipped { skips_found (selection task.entry.selection.now) said (is_folder kind) size path.now ≡ true
        → (outcome.new ≡ outcome.old) × (left.new ≡ left.old) }
    ensures file { skips_found (selection task.entry.selection.now) said (is_folder kind) size path.now ≡ false
        → kind ≡ Ok FoundFile → OnOk result (Tries outcome.old outcome.new) }
    ensures unread { skips_found (selection task.entry.selection.now) said (is_folder kind) size path.now ≡ false
        → IfErr kind (λ _. OnOk result (outcome.new ≡ with_failure outcome.old)) }
    ensures continues { Continues outcome.old outcome.new }
{
    let is_folder = is_folder(&kind);
    if task
        .selection
        .skips_found(rt.alloc(), said, is_folder, size, path)?
    {
        return Ok(());
    }
    search_kind(rt, finder, task, outcome, left, root, path, kind)
}

/// Searches something that was found in a folder, unless the options leave it out.
fn search_found(
    rt: &HostRuntime,
    finder: &mut Finder<'_>,
    task: Task<'_>,
    outcome: &mut Outcome,
    left: &mut Vec<String>,
    ignoring: &mut IgnoreFiles,
    root: &str,
    path: &str,
) -> Result<(), AllocError>
    ensures { Continues outcome.old outcome.new }
{
    let kind = kind_of(rt, path, task.asked.follows);
    let size = size_at(rt, task.selection, &kind, path);
    let is_folder = is_folder(&kind);
    let said = ignoring.said(
        rt,
        task.folders(),
        &mut outcome.failed,
        root,
        path,
        is_folder,
    )?;
    search_unless_skipped(
        rt, finder, task, outcome, left, root, path, said, size, kind,
    )
}

/// Searches the files of a folder, and of the folders in it.
fn search_folder(
    rt: &HostRuntime,
    finder: &mut Finder<'_>,
    task: Task<'_>,
    outcome: &mut Outcome,
    root: &str,
) -> Result<(), AllocError>
    ensures { Continues outcome.old outcome.new }
{
    if !task.selection.enters(0) {
        return Ok(());
    }
    let mut left = Vec::new(rt.alloc());
    let mut ignoring = IgnoreFiles::new(rt, task.folders(), &mut outcome.failed, root)?;
    push_folder(
        rt,
        task.folders(),
        &mut outcome.failed,
        &mut left,
        root,
        true,
    )?;
    for _index in 0..u64::MAX {
        let Some(path) = left.pop() else {
            break;
        };
        let path = path.as_str();
        search_found(
            rt,
            finder,
            task,
            outcome,
            &mut left,
            &mut ignoring,
            root,
            path,
        )?;
        if outcome.ended {
            break;
        }
    }
    Ok(())
}

/// What an argument names.
#[derive(Clone, Copy)]
enum Named {
    Input,
    File,
    Folder,
    Device,
}

fn named_by(kind: Kind) -> Named
    ensures { result ≡ named_by kind }
{
    match kind {
        Kind::File | Kind::Link => Named::File,
        Kind::Folder => Named::Folder,
        Kind::Device => Named::Device,
    }
}

fn named_at(rt: &HostRuntime, path: &str) -> io::Result<Named>
    ensures { path.now ≡ codes "-" → result ≡ Ok Input }
{
    if path == "-" {
        return Ok(Named::Input);
    }
    let kind = kind_of(rt, path, true)?;
    Ok(named_by(kind))
}

/// Searches a folder that an argument names, if its files are to be searched.
fn search_directory(
    rt: &HostRuntime,
    finder: &mut Finder<'_>,
    task: Task<'_>,
    outcome: &mut Outcome,
    path: &str,
) -> Result<(), AllocError>
    ensures rejected { task.entry.asked.now.directories ≡ Reject → outcome.new ≡ with_failure outcome.old }
    ensures skipped { task.entry.asked.now.directories ≡ Skip → outcome.new ≡ outcome.old }
    ensures continues { Continues outcome.old outcome.new }
{
    match task.asked.directories {
        Directories::Recurse => return search_folder(rt, finder, task, outcome, path),
        Directories::Reject => outcome.fail_with(rt, task.asked, path, "Is a directory"),
        Directories::Skip => {}
    }
    Ok(())
}

/// Whether the options leave out what an argument names.
fn leaves_out(alloc: Global, task: Task<'_>, path: &str, named: Named) -> Result<bool, AllocError>
    ensures { IfOk result (λ is. is ≡ leaves_out (selection task.entry.selection.now) task.entry.bare named path.now) }
{
    match named {
        Named::File | Named::Device => task.selection.skips_named(alloc, false, path),
        Named::Folder => {
            if task.bare {
                return Ok(false);
            }
            task.selection.skips_named(alloc, true, path)
        }
        Named::Input => Ok(false),
    }
}

/// Whether the options leave out what an argument names, if that is known.
fn is_left_out(
    alloc: Global,
    task: Task<'_>,
    path: &str,
    named: &io::Result<Named>,
) -> Result<bool, AllocError>
    ensures { IfOk result (λ is. is ≡ is_left_out (selection task.entry.selection.now) task.entry.bare named.now path.now) }
{
    match named {
        Ok(named) => leaves_out(alloc, task, path, *named),
        Err(_) => Ok(false),
    }
}

/// Whether what an argument names may be several files: the files of a folder.
fn may_be_several(directories: Directories, named: &io::Result<Named>) -> bool
    ensures { result ≡ may_be_several directories named.now }
{
    match named {
        Ok(Named::Folder) => directories == Directories::Recurse,
        _ => false,
    }
}

/// What files are searched for, where no names are printed yet.
fn task_of<'a>(rt: &HostRuntime, asked: &'a Asked<'a>, files: Files<'a>) -> Task<'a>
    ensures asked { result.asked.now ≡ asked.now }
    ensures selection { result.selection.now ≡ files.entry.selection.now }
    ensures bare { result.bare ≡ (length files.entry.names.now == 0) }
{
    Task {
        asked,
        with_name: false,
        bare: files.names.is_empty(),
        input_name: files.input_name,
        output: output_file(rt),
        selection: files.selection,
        width: 0,
        hides_controls: hides_controls(
            rt.stdout().is_terminal(),
            asked.what.zero_names || prints_json(asked.reading),
        ),
    }
}

/// What is asked for. If the names of files are printed, folders are searched too, unless these are skipped.
fn with_folders<'a>(asked: &Asked<'a>, lists: bool) -> Asked<'a>
    ensures { result ≡ with_listed_folders asked.now lists }
{
    if !lists || asked.directories == Directories::Skip {
        return *asked;
    }
    Asked {
        directories: Directories::Recurse,
        ..*asked
    }
}

/// What is searched if no argument names anything.
fn default_paths<'a>(directories: Directories) -> &'a [&'a str]
    ensures { map (λ p. p.now) result.now ≡ default_paths directories }
{
    if directories == Directories::Recurse {
        &["."]
    } else {
        &["-"]
    }
}

/// The paths of what is searched: what arguments name, or the current folder or standard input if they name nothing. There is none if no line
/// can be selected.
fn paths_of<'a>(
    asked: &Asked,
    directories: Directories,
    patterns: &[String],
    files: Files<'a>,
) -> &'a [&'a str]
    ensures { map (λ p. p.now) result.now ≡ searched_paths asked.now directories files.entry.selection.now.lists
        (map string_bytes patterns.now) (map (λ p. p.now) files.entry.names.now) }
{
    if !files.selection.lists && selects_none(asked, patterns) {
        return &[];
    }
    if files.names.is_empty() {
        return default_paths(directories);
    }
    files.names
}

/// Prints what is printed after all files: the sum of what was searched, and statistics.
fn conclude(
    rt: &HostRuntime,
    finder: &Finder<'_>,
    asked: &Asked,
    outcome: &mut Outcome,
) -> Result<(), AllocError>
    ensures none { prints_summary asked.now ≡ false → outcome.new ≡ outcome.old }
    ensures continues { Continues outcome.old outcome.new }
{
    if prints_summary(asked) {
        outcome.write_summary(rt)?;
    }
    if asked.stats {
        outcome.report_stats(rt, finder);
    }
    Ok(())
}

/// Searches what arguments name, unless the options leave it out, and prints what is printed after all files. What can't be searched is
/// recorded. Names are printed if several files may be searched, or if options ask for them. No file is opened if none of their lines can be
/// selected.
pub fn search_files(
    rt: &HostRuntime,
    finder: &mut Finder<'_>,
    asked: &Asked,
    patterns: &[String],
    outcome: &mut Outcome,
    files: Files<'_>,
) -> Result<(), AllocError>
    ensures none { selects_none asked.now (map string_bytes patterns.now) ≡ true → files.entry.selection.now.lists ≡ false
        → prints_summary asked.now ≡ false → outcome.new ≡ outcome.old }
    ensures each { (done : Bool) × OnOk result (done ≡ true) × SearchesNames asked.now (selection files.entry.selection.now)
        (map string_bytes patterns.now) (map (λ p. p.now) files.entry.names.now) done outcome.old outcome.new }
    ensures continues { Continues outcome.old outcome.new }
{
    let searched = with_folders(asked, files.selection.lists);
    let paths = paths_of(asked, searched.directories, patterns, files);
    if paths.is_empty() {
        return conclude(rt, finder, asked, outcome);
    }
    let task = task_of(rt, &searched, files);
    for path in paths {
        let named = named_at(rt, path);
        let several = paths.len() > 1 || may_be_several(searched.directories, &named);
        let with_name = is_named(searched.names, several);
        let task = Task { with_name, ..task };
        if is_left_out(rt.alloc(), task, path, &named)? {
            continue;
        }
        match named {
            Ok(Named::Input) => search_input(rt, finder, task, outcome),
            Ok(Named::File) => search_file(rt, finder, task, outcome, path),
            Ok(Named::Folder) => search_directory(rt, finder, task, outcome, path)?,
            Ok(Named::Device) => {
                let is_read = reads_named(task.asked.devices);
                search_device(rt, finder, task, outcome, path, is_read);
            }
            Err(e) => outcome.fail(rt, task.asked, path, e),
        }
        if outcome.ended {
            break;
        }
    }
    conclude(rt, finder, asked, outcome)
}

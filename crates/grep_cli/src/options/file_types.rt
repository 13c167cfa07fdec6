//! Types of files, by globs of their names.
ghost use Rattle.std.specs.Prelude.{◌≡◌, ◌++◌, ◌∷◌, [], OnOk, IfOk, map, string_bytes};
ghost use Rattle.globs.specs.Rules.{rule_of};
ghost use Rattle.grep_cli.specs.FileTypes.{is_of, is_type, of_type, row_of, row_text, rows_of, type_rules, types_text};

use globs::{Rule, chars_of};
use std::alloc::{AllocError, Global};

/// The types and globs of names of their files, a row for each glob, in the order of the names. The names are those that ripgrep has.
const TYPES: [(&str, &str); 289] = [
    ("agda", "*.agda"),
    ("agda", "*.lagda"),
    ("asciidoc", "*.adoc"),
    ("asciidoc", "*.asc"),
    ("asciidoc", "*.asciidoc"),
    ("asm", "*.S"),
    ("asm", "*.asm"),
    ("asm", "*.s"),
    ("awk", "*.awk"),
    ("bazel", "*.BUILD"),
    ("bazel", "*.bazel"),
    ("bazel", "*.bazelrc"),
    ("bazel", "*.bzl"),
    ("bazel", "BUILD"),
    ("bazel", "WORKSPACE"),
    ("c", "*.[chH]"),
    ("c", "*.[chH].in"),
    ("c", "*.cats"),
    ("cabal", "*.cabal"),
    ("clojure", "*.clj"),
    ("clojure", "*.cljc"),
    ("clojure", "*.cljs"),
    ("clojure", "*.cljx"),
    ("cmake", "*.cmake"),
    ("cmake", "CMakeLists.txt"),
    ("coffeescript", "*.coffee"),
    ("config", "*.cfg"),
    ("config", "*.conf"),
    ("config", "*.config"),
    ("config", "*.ini"),
    ("cpp", "*.[ChH]"),
    ("cpp", "*.[ChH].in"),
    ("cpp", "*.[ch]pp"),
    ("cpp", "*.[ch]pp.in"),
    ("cpp", "*.[ch]xx"),
    ("cpp", "*.[ch]xx.in"),
    ("cpp", "*.cc"),
    ("cpp", "*.cc.in"),
    ("cpp", "*.hh"),
    ("cpp", "*.hh.in"),
    ("cpp", "*.inl"),
    ("crystal", "*.cr"),
    ("crystal", "Projectfile"),
    ("cs", "*.cs"),
    ("csharp", "*.cs"),
    ("css", "*.css"),
    ("css", "*.scss"),
    ("csv", "*.csv"),
    ("cython", "*.pxd"),
    ("cython", "*.pxi"),
    ("cython", "*.pyx"),
    ("d", "*.d"),
    ("dart", "*.dart"),
    ("diff", "*.diff"),
    ("diff", "*.patch"),
    ("docker", "*Dockerfile*"),
    ("elisp", "*.el"),
    ("elixir", "*.eex"),
    ("elixir", "*.ex"),
    ("elixir", "*.exs"),
    ("elm", "*.elm"),
    ("erlang", "*.erl"),
    ("erlang", "*.hrl"),
    ("fish", "*.fish"),
    ("fortran", "*.F"),
    ("fortran", "*.F77"),
    ("fortran", "*.F90"),
    ("fortran", "*.F95"),
    ("fortran", "*.f"),
    ("fortran", "*.f77"),
    ("fortran", "*.f90"),
    ("fortran", "*.f95"),
    ("fortran", "*.pfo"),
    ("fsharp", "*.fs"),
    ("fsharp", "*.fsi"),
    ("fsharp", "*.fsx"),
    ("go", "*.go"),
    ("gradle", "*.gradle"),
    ("groovy", "*.gradle"),
    ("groovy", "*.groovy"),
    ("h", "*.h"),
    ("h", "*.hpp"),
    ("haskell", "*.c2hs"),
    ("haskell", "*.cpphs"),
    ("haskell", "*.hs"),
    ("haskell", "*.hsc"),
    ("haskell", "*.lhs"),
    ("html", "*.ejs"),
    ("html", "*.htm"),
    ("html", "*.html"),
    ("java", "*.java"),
    ("java", "*.jsp"),
    ("java", "*.jspx"),
    ("java", "*.properties"),
    ("jinja", "*.j2"),
    ("jinja", "*.jinja"),
    ("jinja", "*.jinja2"),
    ("js", "*.js"),
    ("js", "*.jsx"),
    ("js", "*.vue"),
    ("json", "*.json"),
    ("json", "composer.lock"),
    ("jsonl", "*.jsonl"),
    ("julia", "*.jl"),
    ("jupyter", "*.ipynb"),
    ("jupyter", "*.jpynb"),
    ("kotlin", "*.kt"),
    ("kotlin", "*.kts"),
    ("less", "*.less"),
    ("lisp", "*.el"),
    ("lisp", "*.jl"),
    ("lisp", "*.lisp"),
    ("lisp", "*.lsp"),
    ("lisp", "*.sc"),
    ("lisp", "*.scm"),
    ("lock", "*.lock"),
    ("lock", "package-lock.json"),
    ("log", "*.log"),
    ("lua", "*.lua"),
    ("m4", "*.ac"),
    ("m4", "*.m4"),
    ("make", "*.mak"),
    ("make", "*.mk"),
    ("make", "[Gg][Nn][Uu]makefile"),
    ("make", "[Gg][Nn][Uu]makefile.am"),
    ("make", "[Gg][Nn][Uu]makefile.in"),
    ("make", "[Mm]akefile"),
    ("make", "[Mm]akefile.am"),
    ("make", "[Mm]akefile.in"),
    ("markdown", "*.markdown"),
    ("markdown", "*.md"),
    ("markdown", "*.mdown"),
    ("markdown", "*.mkdn"),
    ("matlab", "*.m"),
    ("md", "*.markdown"),
    ("md", "*.md"),
    ("md", "*.mdown"),
    ("md", "*.mkdn"),
    ("msbuild", "*.csproj"),
    ("msbuild", "*.fsproj"),
    ("msbuild", "*.proj"),
    ("msbuild", "*.props"),
    ("msbuild", "*.targets"),
    ("msbuild", "*.vcxproj"),
    ("nim", "*.nim"),
    ("nim", "*.nimble"),
    ("nim", "*.nimf"),
    ("nim", "*.nims"),
    ("nix", "*.nix"),
    ("objc", "*.h"),
    ("objc", "*.m"),
    ("objcpp", "*.h"),
    ("objcpp", "*.mm"),
    ("ocaml", "*.ml"),
    ("ocaml", "*.mli"),
    ("ocaml", "*.mll"),
    ("ocaml", "*.mly"),
    ("org", "*.org"),
    ("org", "*.org_archive"),
    ("pascal", "*.dpr"),
    ("pascal", "*.inc"),
    ("pascal", "*.lpr"),
    ("pascal", "*.pas"),
    ("pascal", "*.pp"),
    ("pdf", "*.pdf"),
    ("perl", "*.PL"),
    ("perl", "*.perl"),
    ("perl", "*.pl"),
    ("perl", "*.plh"),
    ("perl", "*.plx"),
    ("perl", "*.pm"),
    ("perl", "*.t"),
    ("php", "*.php"),
    ("php", "*.php3"),
    ("php", "*.php4"),
    ("php", "*.php5"),
    ("php", "*.phtml"),
    ("protobuf", "*.proto"),
    ("ps", "*.cdxml"),
    ("ps", "*.ps1"),
    ("ps", "*.ps1xml"),
    ("ps", "*.psd1"),
    ("ps", "*.psm1"),
    ("py", "*.py"),
    ("r", "*.R"),
    ("r", "*.Rmd"),
    ("r", "*.Rnw"),
    ("r", "*.r"),
    ("rst", "*.rst"),
    ("ruby", "*.gemspec"),
    ("ruby", "*.rb"),
    ("ruby", "*.rbw"),
    ("ruby", ".irbrc"),
    ("ruby", "Gemfile"),
    ("ruby", "Rakefile"),
    ("ruby", "config.ru"),
    ("rust", "*.rs"),
    ("sass", "*.sass"),
    ("sass", "*.scss"),
    ("scala", "*.sbt"),
    ("scala", "*.scala"),
    ("sh", "*.bash"),
    ("sh", "*.bashrc"),
    ("sh", "*.csh"),
    ("sh", "*.cshrc"),
    ("sh", "*.ksh"),
    ("sh", "*.kshrc"),
    ("sh", "*.sh"),
    ("sh", "*.tcsh"),
    ("sh", "*.zsh"),
    ("sh", ".bash_login"),
    ("sh", ".bash_logout"),
    ("sh", ".bash_profile"),
    ("sh", ".bashrc"),
    ("sh", ".cshrc"),
    ("sh", ".kshrc"),
    ("sh", ".login"),
    ("sh", ".logout"),
    ("sh", ".profile"),
    ("sh", ".tcshrc"),
    ("sh", ".zlogin"),
    ("sh", ".zlogout"),
    ("sh", ".zprofile"),
    ("sh", ".zshenv"),
    ("sh", ".zshrc"),
    ("sh", "bash_login"),
    ("sh", "bash_logout"),
    ("sh", "bash_profile"),
    ("sh", "bashrc"),
    ("sh", "profile"),
    ("sh", "zlogin"),
    ("sh", "zlogout"),
    ("sh", "zprofile"),
    ("sh", "zshenv"),
    ("sh", "zshrc"),
    ("sql", "*.psql"),
    ("sql", "*.sql"),
    ("svg", "*.svg"),
    ("swift", "*.swift"),
    ("tcl", "*.tcl"),
    ("tex", "*.bib"),
    ("tex", "*.cls"),
    ("tex", "*.dtx"),
    ("tex", "*.ins"),
    ("tex", "*.ltx"),
    ("tex", "*.sty"),
    ("tex", "*.tex"),
    ("toml", "*.toml"),
    ("toml", "Cargo.lock"),
    ("ts", "*.ts"),
    ("ts", "*.tsx"),
    ("twig", "*.twig"),
    ("txt", "*.txt"),
    ("vala", "*.vala"),
    ("vb", "*.vb"),
    ("verilog", "*.sv"),
    ("verilog", "*.svh"),
    ("verilog", "*.v"),
    ("verilog", "*.vh"),
    ("vhdl", "*.vhd"),
    ("vhdl", "*.vhdl"),
    ("vim", "*.vim"),
    ("webidl", "*.idl"),
    ("webidl", "*.webidl"),
    ("webidl", "*.widl"),
    ("xml", "*.dtd"),
    ("xml", "*.rng"),
    ("xml", "*.sch"),
    ("xml", "*.xhtml"),
    ("xml", "*.xjb"),
    ("xml", "*.xml"),
    ("xml", "*.xml.dist"),
    ("xml", "*.xsd"),
    ("xml", "*.xsl"),
    ("xml", "*.xslt"),
    ("yaml", "*.yaml"),
    ("yaml", "*.yml"),
    ("zig", "*.zig"),
    ("zsh", "*.zsh"),
    ("zsh", ".zlogin"),
    ("zsh", ".zlogout"),
    ("zsh", ".zprofile"),
    ("zsh", ".zshenv"),
    ("zsh", ".zshrc"),
    ("zsh", "zlogin"),
    ("zsh", "zlogout"),
    ("zsh", "zprofile"),
    ("zsh", "zshenv"),
    ("zsh", "zshrc"),
];

/// The types of files without options that change them. It is a function, since the prover reads the whole table in each one that names it.
pub fn known_types() -> &'static [(&'static str, &'static str)] {
    &TYPES
}

/// Whether a row is of this type. All rows are of the type `all`.
pub fn is_of(row: &(&str, &str), name: &str) -> bool
    ensures { result ≡ is_of name.now (row_of row.now) }
{
    name == row.0 || name == "all"
}

/// Whether there is a type of this name.
pub fn is_type(types: &[(&str, &str)], name: &str) -> bool
    ensures { result ≡ is_type name.now (rows_of types.now) }
{
    for row in types {
        if is_of(row, name) {
            return true;
        }
    }
    false
}

fn push_row(
    alloc: Global,
    rules: &mut Vec<Rule>,
    selects: bool,
    row: &(&str, &str),
) -> Result<(), AllocError>
    ensures { OnOk result (map rule_of rules.new.items ≡ map rule_of rules.old.items ++ type_rules selects (row_of row.now ∷ [])) }
{
    let chars = chars_of(alloc, row.1)?;
    let rule = Rule::of_type(alloc, selects, &chars)?;
    rules.push(rule)?;
    Ok(())
}

/// Appends the rules of a type, which select its files or leave them out.
pub fn push_type(
    alloc: Global,
    rules: &mut Vec<Rule>,
    types: &[(&str, &str)],
    selects: bool,
    name: &str,
) -> Result<(), AllocError>
    ensures { OnOk result (map rule_of rules.new.items
        ≡ map rule_of rules.old.items ++ type_rules selects (of_type name.now (rows_of types.now))) }
{
    for row in types {
        if is_of(row, name) {
            push_row(alloc, rules, selects, row)?;
        }
    }
    Ok(())
}

/// Appends a row to the list of types: what is between it and the row before, and its glob.
fn push_text(text: &mut String, previous: &str, row: &(&str, &str)) -> Result<(), AllocError>
    ensures { OnOk result (string_bytes text.new ≡ string_bytes text.old ++ row_text previous.now (row_of row.now)) }
{
    if row.0 == previous {
        text.push_str(", ")?;
    } else {
        if !previous.is_empty() {
            text.push('\n')?;
        }
        text.push_str(row.0)?;
        text.push_str(": ")?;
    }
    text.push_str(row.1)?;
    Ok(())
}

/// The list of types, one a line, with their globs.
pub fn list_of_types(alloc: Global, types: &[(&str, &str)]) -> Result<String, AllocError>
    ensures { IfOk result (λ text. string_bytes text ≡ types_text [] (rows_of types.now)) }
{
    let mut text = String::new(alloc);
    let mut previous = "";
    for row in types {
        push_text(&mut text, previous, row)?;
        previous = row.0;
    }
    text.push('\n')?;
    Ok(text)
}

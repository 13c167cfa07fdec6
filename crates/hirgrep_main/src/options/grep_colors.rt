//! The colours that `GREP_COLORS` sets.
ghost use Rattle.std.specs.Prelude.{◌≡◌, if◌then◌else◌, option_map};
ghost use Rattle.std.specs.List.{list_all};
ghost use Rattle.hirgrep_main.specs.GrepColors.{codes_of, colors_by, colors_given, is_broken, is_code, is_color, older, standard};
ghost use Rattle.hirgrep_main.specs.GrepColors.{colors_after_item, with_matches, colors_after_name, colors_after_value};

use grep_core::Colors;

/// The colours that are set without a variable.
fn standard_colors() -> Colors<'static>
    ensures { codes_of result ≡ standard }
{
    Colors {
        names: b"35",
        numbers: b"32",
        offsets: b"32",
        separators: b"36",
        selected_lines: b"",
        context_lines: b"",
        selected_matches: b"01;31",
        context_matches: b"01;31",
        swaps: false,
        erases: true,
    }
}

/// Whether a byte may be part of a text that sets a colour.
fn is_code(byte: u8) -> bool
    ensures { result ≡ is_code byte }
{
    (byte > 47 && byte < 58) || byte == b';'
}

/// Whether all bytes may be part of a text that sets a colour.
fn are_codes(text: &[u8]) -> bool
    ensures { result ≡ list_all is_code text.now }
{
    text.iter().all(|b| is_code(*b))
}

/// Whether an item has no name before its equals sign, or another byte in its value.
fn is_broken(item: &str) -> bool
    ensures { result ≡ is_broken item.now }
{
    match item.split_once('=') {
        Some((name, value)) => name.is_empty() || !are_codes(value.as_bytes()),
        None => false,
    }
}

/// The colours after an item of this name and value.
fn colors_after_value<'a>(colors: Colors<'a>, name: &str, value: &'a str) -> Colors<'a>
    ensures { codes_of result ≡ colors_after_value (codes_of colors.entry) name.now value.now }
{
    let mut colors = colors;
    let code = value.as_bytes();
    match name {
        "mt" | "ms" => colors.selected_matches = code,
        "mc" => colors.context_matches = code,
        "sl" => colors.selected_lines = code,
        "cx" => colors.context_lines = code,
        "fn" => colors.names = code,
        "ln" => colors.numbers = code,
        "bn" => colors.offsets = code,
        "se" => colors.separators = code,
        _ => {}
    }
    colors
}

/// The colours after the name of an item, which may have a value.
fn colors_after_name<'a>(colors: Colors<'a>, name: &str) -> Colors<'a>
    ensures { codes_of result ≡ colors_after_name (codes_of colors.entry) name.now }
{
    let mut colors = colors;
    match name {
        "mt" => colors.context_matches = colors.selected_matches,
        "rv" => colors.swaps = true,
        "ne" => colors.erases = false,
        _ => {}
    }
    colors
}

/// The colours after an item that isn't broken.
fn colors_after_item<'a>(colors: Colors<'a>, item: &'a str) -> Colors<'a>
    ensures { codes_of result ≡ colors_after_item (codes_of colors.entry) item.now }
{
    match item.split_once('=') {
        Some((name, value)) => colors_after_name(colors_after_value(colors, name, value), name),
        None => colors_after_name(colors, item),
    }
}

/// The colours after an item, unless one was broken up to it.
fn next_colors<'a>(colors: Colors<'a>, is_over: bool, item: &'a str) -> Colors<'a>
    ensures { codes_of result ≡ (if is_over then codes_of colors.entry else colors_after_item (codes_of colors.entry) item.now) }
{
    if is_over {
        colors
    } else {
        colors_after_item(colors, item)
    }
}

/// The colours after the items of `GREP_COLORS`. A broken item and those after it have no effect.
fn colors_by<'a>(colors: Colors<'a>, text: &'a str) -> Colors<'a>
    ensures { codes_of result ≡ colors_by (codes_of colors.entry) text.now }
{
    let mut colors = colors;
    let mut is_over = false;
    for item in text.split(':') {
        is_over |= is_broken(item);
        colors = next_colors(colors, is_over, item);
    }
    colors
}

/// Whether a text sets a colour.
pub fn is_color(text: &str) -> bool
    ensures { result ≡ is_color text.now }
{
    !text.is_empty() && are_codes(text.as_bytes())
}

/// The colours after the older variable `GREP_COLOR`, which sets that of matches.
fn with_matches<'a>(colors: Colors<'a>, text: &'a str) -> Colors<'a>
    ensures { codes_of result ≡ with_matches (codes_of colors.entry) text.now }
{
    if !is_color(text) {
        return colors;
    }
    let code = text.as_bytes();
    Colors {
        selected_matches: code,
        context_matches: code,
        ..colors
    }
}

/// The colours after the older variable, if it is set.
fn older(old: Option<&str>) -> Colors<'_>
    ensures { codes_of result ≡ older (option_map (λ t. t.now) old.entry) }
{
    match old {
        Some(text) => with_matches(standard_colors(), text),
        None => standard_colors(),
    }
}

/// The colours by `GREP_COLOR` and `GREP_COLORS`, as far as these are set.
pub fn colors_given<'a>(old: Option<&'a str>, new: Option<&'a str>) -> Colors<'a>
    ensures { codes_of result ≡ colors_given (option_map (λ t. t.now) old.entry) (option_map (λ t. t.now) new.entry) }
{
    match new {
        Some(text) => colors_by(older(old), text),
        None => older(old),
    }
}

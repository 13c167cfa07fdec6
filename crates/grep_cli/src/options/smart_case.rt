//! Smart case: whether patterns have literal characters, and a capital letter among them.
ghost use Rattle.std.specs.Prelude.{◌≡◌, chars, map};
ghost use Rattle.grep_cli.specs.SmartCase.{after_begin, after_class_char, after_digit, after_escape, after_flag, after_group, after_item, after_literal};
ghost use Rattle.grep_cli.specs.SmartCase.{after_nested, after_plain, after_property, closing, deeper, ignores_case, in_mode, is_class_letter, is_operator, is_separator};
ghost use Rattle.grep_cli.specs.SmartCase.{after_char, no_scan, next_pattern, scan_chars, scan_texts, after_hex_digit, after_value, digits_of, after_braced, after_class, after_until};

/// What is read next of a pattern.
#[derive(Clone, Copy)]
enum Mode {
    /// A character outside of classes, or in one.
    Item,
    /// What follows a backslash.
    Escape,
    /// What follows `\p` or `\P`.
    Property,
    /// So many hexadecimal digits of a character's number.
    Digits(u32),
    /// Such digits, up to a closing brace.
    Braced,
    /// What follows an opening parenthesis.
    Group,
    /// The flags of a group.
    Flags,
    /// What follows the bracket that begins a class.
    Class,
    /// What follows that bracket and a caret.
    Negated,
    /// What follows a bracket in a class.
    Nested,
    /// No literals, up to this character.
    Until(char),
}

/// What was read of patterns.
#[derive(Clone, Copy)]
struct Scan {
    mode: Mode,
    /// In how many classes the next character is.
    depth: u64,
    /// The number of a character of which digits were read.
    value: u32,
    /// There was a literal character.
    literal: bool,
    /// There was a literal capital letter.
    capital: bool,
}

/// Whether the character outside of classes is an operator, and nothing else has to be known of it.
fn is_operator(c: char) -> bool
    ensures { result ≡ is_operator c }
{
    c == '.' || c == '^' || c == '$' || c == '|' || c == ')' || c == '*' || c == '+' || c == '?'
}

/// Whether the character in a class may stand between literals.
fn is_separator(c: char) -> bool
    ensures { result ≡ is_separator c }
{
    c == '-' || c == '&' || c == '~'
}

/// Whether a backslash before the letter makes a class or a look.
fn is_class(c: char) -> bool
    ensures { result ≡ is_class_letter c }
{
    c == 'd'
        || c == 'D'
        || c == 's'
        || c == 'S'
        || c == 'w'
        || c == 'W'
        || c == 'b'
        || c == 'B'
        || c == 'A'
        || c == 'z'
}

/// How many hexadecimal digits follow the letter.
fn digits_of(c: char) -> u32
    ensures { result ≡ digits_of c }
{
    if c == 'x' {
        return 2;
    }
    if c == 'u' {
        return 4;
    }
    8
}

impl Scan {
    /// What was read of no pattern.
    fn new() -> Scan
        ensures { result ≡ no_scan }
    {
        Scan {
            mode: Mode::Item,
            depth: 0,
            value: 0,
            literal: false,
            capital: false,
        }
    }

    /// Goes on with another pattern.
    fn next_pattern(self) -> Scan
        ensures { result ≡ next_pattern self }
    {
        Scan {
            mode: Mode::Item,
            depth: 0,
            ..self
        }
    }

    fn to(self, mode: Mode) -> Scan
        ensures { result ≡ in_mode self mode }
    {
        Scan { mode, ..self }
    }

    /// Reads a literal character.
    fn literal(self, c: char) -> Scan
        ensures { result ≡ after_literal self c }
    {
        Scan {
            mode: Mode::Item,
            literal: true,
            capital: self.capital || c.is_uppercase(),
            ..self
        }
    }

    /// Enters a class.
    fn deeper(self) -> Scan
        ensures { result ≡ deeper self }
    {
        Scan {
            mode: Mode::Class,
            depth: self.depth.saturating_add(1),
            ..self
        }
    }

    /// Leaves a class.
    fn closing(self) -> Scan
        ensures { result ≡ closing self }
    {
        Scan {
            mode: Mode::Item,
            depth: self.depth.saturating_sub(1),
            ..self
        }
    }

    /// Reads a character outside of classes.
    fn plain(self, c: char) -> Scan
        ensures { result ≡ after_plain self c }
    {
        if c == '\\' {
            return self.to(Mode::Escape);
        }
        if c == '[' {
            return self.deeper();
        }
        if c == '(' {
            return self.to(Mode::Group);
        }
        if c == '{' {
            return self.to(Mode::Until('}'));
        }
        if is_operator(c) {
            return self.to(Mode::Item);
        }
        self.literal(c)
    }

    /// Reads a character in a class.
    fn class_char(self, c: char) -> Scan
        ensures { result ≡ after_class_char self c }
    {
        if c == '\\' {
            return self.to(Mode::Escape);
        }
        if c == '[' {
            return self.to(Mode::Nested);
        }
        if c == ']' {
            return self.closing();
        }
        if is_separator(c) {
            return self.to(Mode::Item);
        }
        self.literal(c)
    }

    fn item(self, c: char) -> Scan
        ensures { result ≡ after_item self c }
    {
        if self.depth == 0 {
            return self.plain(c);
        }
        self.class_char(c)
    }

    /// Reads what follows a backslash.
    fn escape(self, c: char) -> Scan
        ensures { result ≡ after_escape self c }
    {
        if c == 'p' || c == 'P' {
            return self.to(Mode::Property);
        }
        if c == 'x' || c == 'u' || c == 'U' {
            return Scan {
                mode: Mode::Digits(digits_of(c)),
                value: 0,
                ..self
            };
        }
        if is_class(c) {
            return self.to(Mode::Item);
        }
        self.literal(c)
    }

    /// Reads what follows `\p`.
    fn property(self, c: char) -> Scan
        ensures { result ≡ after_property self c }
    {
        if c == '{' {
            return self.to(Mode::Until('}'));
        }
        self.to(Mode::Item)
    }

    /// Reads the last digit of a character's number, or what ends it.
    fn value(self) -> Scan
        ensures { result ≡ after_value self }
    {
        match char::from_u32(self.value) {
            Some(c) => self.literal(c),
            None => self.to(Mode::Item),
        }
    }

    /// Reads a digit of a character's number. What is none changes nothing.
    fn with_digit(self, c: char) -> Scan
        ensures { result ≡ after_hex_digit self c }
    {
        match c.to_digit(16) {
            Some(digit) => Scan {
                value: if self.value < 0x110000 {
                    self.value * 16 + digit
                } else {
                    self.value
                },
                ..self
            },
            None => self,
        }
    }

    /// Reads a digit of a character's number of which so many are left, or a brace before them.
    fn digit(self, left: u32, c: char) -> Scan
        ensures { result ≡ after_digit self left c }
    {
        if c == '{' {
            return self.to(Mode::Braced);
        }
        let next = self.with_digit(c);
        if left <= 1 {
            return next.value();
        }
        next.to(Mode::Digits(left - 1))
    }

    fn braced(self, c: char) -> Scan
        ensures { result ≡ after_braced self c }
    {
        if c == '}' {
            return self.value();
        }
        self.with_digit(c)
    }

    /// Reads what follows an opening parenthesis.
    fn group(self, c: char) -> Scan
        ensures { result ≡ after_group self c }
    {
        if c == '?' {
            return self.to(Mode::Flags);
        }
        self.item(c)
    }

    /// Reads a flag of a group, or what ends them.
    fn flag(self, c: char) -> Scan
        ensures { result ≡ after_flag self c }
    {
        if c == ':' || c == ')' {
            return self.to(Mode::Item);
        }
        if c == '<' {
            return self.to(Mode::Until('>'));
        }
        self
    }

    /// Reads what follows the bracket that begins a class, and its caret.
    fn begin(self, c: char) -> Scan
        ensures { result ≡ after_begin self c }
    {
        if c == ']' {
            return self.literal(c);
        }
        self.class_char(c)
    }

    /// Reads what follows the bracket that begins a class.
    fn class(self, c: char) -> Scan
        ensures { result ≡ after_class self c }
    {
        if c == '^' {
            return self.to(Mode::Negated);
        }
        self.begin(c)
    }

    /// Reads what follows a bracket in a class: a named class, or another class.
    fn nested(self, c: char) -> Scan
        ensures { result ≡ after_nested self c }
    {
        if c == ':' {
            return self.to(Mode::Until(']'));
        }
        self.deeper().class(c)
    }

    fn until(self, end: char, c: char) -> Scan
        ensures { result ≡ after_until self end c }
    {
        if c == end {
            return self.to(Mode::Item);
        }
        self
    }

    /// Reads a character.
    fn next(self, c: char) -> Scan
        ensures { result ≡ after_char self c }
    {
        match self.mode {
            Mode::Item => self.item(c),
            Mode::Escape => self.escape(c),
            Mode::Property => self.property(c),
            Mode::Digits(left) => self.digit(left, c),
            Mode::Braced => self.braced(c),
            Mode::Group => self.group(c),
            Mode::Flags => self.flag(c),
            Mode::Class => self.class(c),
            Mode::Negated => self.begin(c),
            Mode::Nested => self.nested(c),
            Mode::Until(end) => self.until(end, c),
        }
    }

    /// Reads a pattern.
    #[tactic(auto, using(crate::proofs::SmartLemmas::scan_more))]
    fn pattern(self, text: &str) -> Scan
        ensures { result ≡ scan_chars (next_pattern self) (chars text.now) }
    {
        let mut scan = self.next_pattern();
        for c in text.chars() {
            scan = scan.next(c);
        }
        scan
    }
}

/// Reads all patterns.
fn scan_texts(texts: &[&str]) -> Scan
    ensures { result ≡ scan_texts no_scan (map (λ s. s.now) texts.now) }
{
    let mut scan = Scan::new();
    for text in texts {
        scan = scan.pattern(text);
    }
    scan
}

/// Whether letters match in either case under smart case: the patterns have literal characters, and none of them is a capital letter.
pub fn ignores_case(texts: &[&str]) -> bool
    ensures { result ≡ ignores_case (map (λ s. s.now) texts.now) }
{
    let scan = scan_texts(texts);
    scan.literal && !scan.capital
}

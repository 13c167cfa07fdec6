ghost use Rattle.std.specs.Prelude.{◌≡◌};
ghost use Rattle.std.specs.Option.{option_copied};
ghost use Rattle.std.specs.Iterator.{YieldsFirstBy, item_count};
ghost use Rattle.search_types.specs.Groups.{groups_of};
ghost use Rattle.search_types.specs.GroupPlaces.{all_named, left_from};

use crate::group_info::GroupInfo;
use search_core::PatternID;
use std::marker::Model;

/// The names of a pattern's groups in order, `None` for a group without one.
/// As `regex_automata::util::captures::GroupInfoPatternNames`.
#[derive(Drop)]
pub struct GroupInfoPatternNames<'a> {
    info: &'a GroupInfo,
    pattern: PatternID,
    next: usize,
}

impl<'a> Model for GroupInfoPatternNames<'a> {
    ghost use Rattle.std.specs.Prelude.{List, Option, drop};
    ghost use Rattle.search_types.specs.Groups.{Name, groups_of};

    ghost Value = { List (Option Name) };

    ghost view = { λ s. drop s.next (groups_of s.info.now s.pattern) };
}

impl<'a> GroupInfoPatternNames<'a> {
    pub(crate) fn new(info: &'a GroupInfo, pattern: PatternID) -> GroupInfoPatternNames<'a>
        ensures { result ≡ groups_of info.now pattern }
    {
        GroupInfoPatternNames {
            info,
            pattern,
            next: 0,
        }
    }
}

impl<'a> Iterator for GroupInfoPatternNames<'a> {
    type Item = Option<&'a str>;

    ghost next_gives = { YieldsFirstBy option_copied (λ rest. rest) };

    ghost remaining = { item_count (λ rest. rest) };

    fn next(&mut self) -> Option<Option<&'a str>> {
        if self.next >= self.info.group_len(self.pattern) {
            return None;
        }
        let name = self.info.to_name(self.pattern, self.next);
        self.next += 1;
        Some(name)
    }
}

/// The groups of all patterns, pattern by pattern: the pattern, the group's index and its name, if it has
/// one. As `regex_automata::util::captures::GroupInfoAllNames`.
#[derive(Drop)]
pub struct GroupInfoAllNames<'a> {
    info: &'a GroupInfo,
    pattern: usize,
    next: usize,
}

impl<'a> Model for GroupInfoAllNames<'a> {
    ghost use Rattle.std.specs.Prelude.{List, Option, ℕ};
    ghost use Rattle.search_types.specs.Groups.{Name};
    ghost use Rattle.search_types.specs.GroupPlaces.{left_from, IsGroupSlot};

    ghost Value = { List (ℕ × ℕ × Option Name) };

    ghost view = { λ s. left_from s.info.now s.pattern s.next };

    ghost invariant = { λ s. IsGroupSlot s.info.now s.pattern s.next };
}

impl<'a> GroupInfoAllNames<'a> {
    #[tactic(auto, using(crate::proofs::GroupLemmas::has_group, crate::proofs::GroupLemmas::left_from_start))]
    pub(crate) fn new(info: &'a GroupInfo) -> GroupInfoAllNames<'a>
        ensures { result ≡ all_named info.now }
    {
        info.without_fault();
        GroupInfoAllNames {
            info,
            pattern: 0,
            next: 0,
        }
    }
}

impl<'a> Iterator for GroupInfoAllNames<'a> {
    type Item = (PatternID, usize, Option<&'a str>);

    ghost next_gives = { YieldsFirstBy (λ g. (g.0, g.1, option_copied g.2)) (λ rest. rest) };

    ghost remaining = { item_count (λ rest. rest) };

    #[tactic(auto, using(crate::proofs::GroupLemmas::has_group, crate::proofs::GroupLemmas::left_from_past, crate::proofs::GroupLemmas::left_step, crate::proofs::GroupLemmas::left_step_last))]
    fn next(&mut self) -> Option<(PatternID, usize, Option<&'a str>)> {
        if self.pattern >= self.info.pattern_len() {
            return None;
        }
        let pattern = PatternID::must(self.pattern);
        let group = self.next;
        let name = self.info.to_name(pattern, group);
        let group_len = self.info.group_len(pattern);
        if group + 1 < group_len {
            self.next += 1;
            return Some((pattern, group, name));
        }
        self.info.without_fault();
        self.pattern += 1;
        self.next = 0;
        Some((pattern, group, name))
    }
}

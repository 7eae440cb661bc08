// The numbers of lines fit 32 bits.
ghost use Rattle.std.specs.Prelude.{◌≡◌, ◌^◌, nat_lt, true, [], ◌∷◌, map};
ghost use Rattle.std.specs.List.{list_all};
ghost use Rattle.search_trace.specs.RuleLine.{line_of};
ghost use Rattle.search_trace.specs.ReadBack.{is_small};

use search_trace::Line;

/// Shows that the numbers of the lines fit 32 bits.
pub(crate) fn show_small(lines: &[Line])
    ensures { list_all is_small (map line_of lines.now) ≡ true }
{
    for line in lines {
        show_small_line(line);
    }
}

fn show_small_line(line: &Line)
    ensures { is_small (line_of line.now) ≡ true }
{
    match line {
        Line::Start => {}
        Line::And(node, concept) => show_two(*node, *concept),
        Line::Or(node, concept) => show_two(*node, *concept),
        Line::All(node, end, concept) => show_three(*node, *end, *concept),
        Line::Carry(node, end, _, concept) => show_three(*node, *end, *concept),
        Line::Row(node, axiom, part, conjuncts) => show_more(
            *node,
            *axiom,
            *part,
            conjuncts.items(),
        ),
        Line::Range(node, end, axiom) => show_three(*node, *end, *axiom),
        Line::SomeOf(node, end, concept) => show_three(*node, *end, *concept),
        Line::Least(node, first, concept) => show_three(*node, *first, *concept),
        Line::Choose(node, concept) => show_two(*node, *concept),
        Line::Pair(one, other) => show_two(*one, *other),
        Line::Bottom(node) => show_two(*node, *node),
        Line::Clash(node, concept) => show_two(*node, *concept),
        Line::Most(node, concept, ends) => show_more(*node, *node, *concept, ends.items()),
        Line::Fact(axiom, place) => show_two(*axiom, *place),
        Line::Differ(one, other) => show_two(*one, *other),
    }
}

fn show_two(one: u32, two: u32)
    ensures one { nat_lt one (2 ^ 32) ≡ true }
    ensures two { nat_lt two (2 ^ 32) ≡ true }
{}

fn show_three(one: u32, two: u32, three: u32)
    ensures one { nat_lt one (2 ^ 32) ≡ true }
    ensures two { nat_lt two (2 ^ 32) ≡ true }
    ensures three { nat_lt three (2 ^ 32) ≡ true }
{}

fn show_more(one: u32, two: u32, three: u32, others: &[u32])
    ensures one { nat_lt one (2 ^ 32) ≡ true }
    ensures two { nat_lt two (2 ^ 32) ≡ true }
    ensures three { nat_lt three (2 ^ 32) ≡ true }
    ensures others { list_all (λ n. nat_lt n (2 ^ 32)) others.now ≡ true }
{}

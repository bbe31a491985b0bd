// The rules of a table at a judged tick.
ghost use Rattle.std.specs.Prelude.{◌≡◌, ◌<◌, ◌≤◌, length, All};
ghost use Rattle.alarms.specs.Arguments.{arguments as values_of};
ghost use Rattle.tables.specs.Tables.{rules_of};
ghost use Rattle.engine.specs.Rings.{HasRoom};
ghost use Rattle.engine.specs.Rules.{true_rules, arguments_in};
ghost use Rattle.engine.specs.Laws.{FindsCalled, FindsArguments};

use crate::reading::read;
use alarms::alarm::Arguments;
use arrayvec::ArrayVec;
use operators::operator::is_true;
use tables::table::Table;
use walks::graph::RULES;

/// The rules whose guards are true at a tick, in table order.
pub fn find_called(table: &Table, rings: &[u64], tick: u32) -> ArrayVec<u8, RULES>
    requires { HasRoom table.now rings.now }
    ensures rules { result.items ≡ true_rules table.now rings.now tick }
    ensures few { length result.items ≤ 16 }
    ensures known { All (λ k. k < length (rules_of table.now)) result.items }
    ensures called { FindsCalled table.now tick rings.now result.items }
{
    let mut called = ArrayVec::new();
    for (number, rule) in table.rules().iter().enumerate() {
        if is_true(read(table, rings, tick as usize, &rule.guard)) {
            called.push(number as u8);
        }
    }
    called
}

/// The values of a rule's arguments at a tick; none where there is no such rule.
pub fn arguments(table: &Table, rings: &[u64], tick: u32, rule: u8) -> Arguments
    requires { HasRoom table.now rings.now }
    ensures read { rule < length (rules_of table.now) →
        values_of result ≡ arguments_in table.now rings.now tick rule }
    ensures called { rule < length (rules_of table.now) →
        FindsArguments table.now tick rings.now rule (values_of result) }
{
    let mut arguments = Arguments::new();
    let Some(rule) = table.rules().get(usize::from(rule)) else {
        return arguments;
    };
    for argument in &rule.arguments {
        let _room = arguments.push(read(table, rings, tick as usize, argument));
    }
    arguments
}

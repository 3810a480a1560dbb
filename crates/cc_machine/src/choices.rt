//! Operators, choices and the start of a repetition.
ghost use Rattle.std.specs.Prelude.{◌≡◌, ◌≤◌, ◌+ℤ◌, ◌-ℤ◌, length};
ghost use Rattle.std.specs.Int.{w64, int_wrap};
ghost use Rattle.cc_core.specs.Stores as stores;
ghost use Rattle.cc_runs.specs.Machine as table;
ghost use Rattle.cc_machine.specs.Lines.{Goes, on};
ghost use Rattle.cc_machine.specs.Operands.{IsFree};
ghost use Rattle.cc_machine.specs.Parts as views;
ghost use Rattle.cc_machine.specs.Parts.{IsLinked, HasRoom};
ghost use Rattle.cc_machine.specs.Placing.{term_in, variable_in};

use crate::links::operand;
use crate::parts::{Focus, Parts, Small};
use cc_base::literal::Operator;
use cc_capture::Var;
use cc_core::Node;

// The sum, which wraps.
fn sum(left: i64, right: i64) -> i64
    ensures { result ≡ int_wrap w64 (left +ℤ right) }
{
    left.wrapping_add(right)
}

// The difference, which wraps.
fn difference(left: i64, right: i64) -> i64
    ensures { result ≡ int_wrap w64 (left -ℤ right) }
{
    left.wrapping_sub(right)
}

// What the operator gives. The first three wrap.
fn result_of(operator: Operator, left: i64, right: i64) -> Small
    ensures { views.small_literal result ≡ table.result_of operator left right }
{
    match operator {
        Operator::Add => Small::Number(sum(left, right)),
        Operator::Sub => Small::Number(difference(left, right)),
        Operator::Mul => Small::Number(left.wrapping_mul(right)),
        Operator::Less => Small::Truth(left < right),
        Operator::Equal => Small::Truth(left == right),
    }
}

impl<'a> Parts<'a> {
    /// An operator on two numbers.
    pub fn compute(&mut self, environment: usize, operator: Operator, left: Var, right: Var)
        requires { IsLinked self.old }
        ensures { Goes (on self.old (λ store stack made. table.primitive_step store stack made operator (table.literal_in (stores.cell_at store (variable_in self.old environment left))) (table.literal_in (stores.cell_at store (variable_in self.old environment right))))) self.old None self.new }
    {
        match self.number_at(environment, left) {
            Some(one) => match self.number_at(environment, right) {
                Some(other) => self.focus = Focus::Small(result_of(operator, one, other)),
                None => {}
            },
            None => {}
        }
    }

    /// One of two terms, by a truth value.
    pub fn choose(&mut self, environment: usize, test: Var, positive: &'a Node, negative: &'a Node)
        requires linked { IsLinked self.old }
        requires within { environment ≤ length self.old.links.items }
        ensures { Goes (on self.old (λ store stack made. table.conditional_step store stack made (term_in self.old environment positive.now) (term_in self.old environment negative.now) (table.literal_in (stores.cell_at store (variable_in self.old environment test))))) self.old None self.new }
    {
        match self.truth_at(environment, test) {
            Some(truth) => {
                if truth {
                    self.focus = Focus::Code(positive, environment);
                } else {
                    self.focus = Focus::Code(negative, environment);
                }
            }
            None => {}
        }
    }

    /// The start of a repetition.
    pub fn repeat(&mut self, environment: usize, count: Var, function: Var)
        requires linked { IsLinked self.old }
        requires room { HasRoom self.old 1 }
        requires operands { IsFree (variable_in self.old environment function) }
        ensures { Goes (on self.old (λ store stack made. table.repetition_step store stack made (variable_in self.old environment function) (table.literal_in (stores.cell_at store (variable_in self.old environment count))))) self.old None self.new }
    {
        let function = operand(&self.links, environment, function);
        match self.number_at(environment, count) {
            Some(number) => {
                if number > 0 {
                    self.call(function, 1, number as u64, 0);
                } else {
                    self.focus = Focus::Small(Small::Unit);
                }
            }
            None => {}
        }
    }
}

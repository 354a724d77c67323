// The seven placement rules, each tested on its own: a function says whether the rule holds of a claim, exactly. Near-linear in records and points, whatever the claim.
//
// Rules 1 and 4 walk all records in one order, by first point (`order`), each with a small array of what comes next. The others look at one record at a time, in tables that ascend.
#![tactic(auto)]

pub mod entries;
pub mod order;
pub mod rule1;
pub mod rule2;
pub mod rule3;
pub mod rule4;
pub mod rule5;
pub mod rule6;
pub mod rule7;

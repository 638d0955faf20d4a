use super::*;
use pg_base::{Memory, Text};
use std::alloc::Global;
use std::process::Abort;
use std::test::Fail;

/// Words, and what the first rule that fits makes of each.
const SINGULARS: &str = "\
equipment|equipment
OLD_News|OLD_News
people|person
blog_People|blog_Person
children|child
men|man
women|woman
movies|movie
caches|cache
STATUSES|STATUS
buses|bus
aliases|alias
Categories|Category
ties|tie
éies|éie
classes|class
dishes|dish
watches|watch
boxes|box
glass|glass
virus|virus
axis|axis
s|s
user|user
users_posts|users_post
users_|user_
__|__";

/// Words, and what the first rule that fits makes of each.
const PLURALS: &str = "\
species|species
person|people
Child|Children
man|men
woman|women
movie|movies
cache|caches
status|statuses
bus|buses
alias|aliases
Category|Categories
day|days
y|ys
class|classes
box|boxes
waltz|waltzes
watch|watches
dish|dishes
users_post|users_posts
__|__";

/// Names, and those of their types.
const TYPES: &str = "\
users|Users
Blog_posts|BlogPosts
_author__ID_|AuthorID
2fa_code|2faCode
éa_b|éaB
__|";

/// Names, and those of their fields.
const FIELDS: &str = "\
users|users
Blog_posts|blogPosts
_author__ID_|authorID
2fa_code|2faCode
éa_b|éaB
__|";

/// Labels, and the names of their cases.
const CASES: &str = "\
draft|DRAFT
inReview|IN_REVIEW
v2Beta|V2_BETA
HTTPError|HTTPERROR
a-b c|A_B_C
aéB|A_B
2nd|_2ND
|_EMPTY_";

#[derive(Clone, Copy)]
enum Rule {
    Singular,
    Plural,
    Type,
    Field,
    Case,
}

fn made_by(rule: Rule, alloc: Global, name: &str) -> Result<Text, Memory> {
    match rule {
        Rule::Singular => singular(alloc, name),
        Rule::Plural => plural(alloc, name),
        Rule::Type => type_name(alloc, name),
        Rule::Field => field_name(alloc, name),
        Rule::Case => enum_case(alloc, name),
    }
}

/// The rule makes of the first part of each row the second.
fn rows_hold(rt: &impl Abort, alloc: Global, rule: Rule, rows: &str) -> Result<(), Fail> {
    for row in rows.lines() {
        let (name, wanted) = row.split_once('|').ok_or("no row")?;
        let made = made_by(rule, alloc, name)?;
        assert_eq!(rt; made.bytes(), wanted.as_bytes(), "{row}");
    }
    Ok(())
}

#[test]
fn singulars_by_the_first_rule_that_fits(rt: HostRuntime) -> Result<(), Fail> {
    rows_hold(&rt, rt.alloc(), Rule::Singular, SINGULARS)
}

#[test]
fn plurals_by_the_first_rule_that_fits(rt: HostRuntime) -> Result<(), Fail> {
    rows_hold(&rt, rt.alloc(), Rule::Plural, PLURALS)
}

#[test]
fn types_and_fields_join_the_parts(rt: HostRuntime) -> Result<(), Fail> {
    rows_hold(&rt, rt.alloc(), Rule::Type, TYPES)?;
    rows_hold(&rt, rt.alloc(), Rule::Field, FIELDS)
}

#[test]
fn cases_are_upper_case_names(rt: HostRuntime) -> Result<(), Fail> {
    rows_hold(&rt, rt.alloc(), Rule::Case, CASES)
}

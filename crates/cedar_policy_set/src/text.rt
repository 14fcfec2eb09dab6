//! `Display` of policy sets.
ghost use Rattle.std.specs.Prelude.{◌≡◌, ◌&&◌, ◌++◌, true};
ghost use Rattle.std.specs.Fmt.{WritesOnOk};
ghost use Rattle.std.specs.List.{list_all, flat_map};
ghost use Rattle.cedar_policy_set.specs.SetTexts.{set_output, bodies_text, body_line, known_body, is_known_body};
ghost use Rattle.cedar_policy_set.specs.SetTexts.{is_known_policy, orders_text, policies_text, policy_line};
ghost use Rattle.cedar_policy_set.specs.SetTexts.{known_policy, titled_text};

use crate::policy_set::PolicySet;
use cedar_policy::{Policy, Template};
use cedar_policy_maps::{AllTemplates, Policies, PolicyMaps};
use std::fmt;
use std::hash::BuildHasher;

impl<S: BuildHasher + Copy> fmt::Display for PolicySet<S> {
    ghost output = { set_output };

    /// Writes all bodies and then all policies, separated by line feeds. Writes `<empty policyset>` for an empty set.
    /// Does not allocate.
    fn fmt<W: fmt::Write>(&self, f: &mut fmt::Formatter<W>) -> fmt::Result {
        write_orders(&self.maps, f)
    }
}

// Writes the bodies and the policies of a set.
#[tactic(auto, using(crate::proofs::Written::empty_text, crate::proofs::Written::full_text))]
fn write_orders<S: BuildHasher + Copy, W: fmt::Write>(
    maps: &PolicyMaps<S>,
    f: &mut fmt::Formatter<W>,
) -> fmt::Result
    ensures { (list_all is_known_body maps.now.bodies && list_all is_known_policy maps.now.policies) ≡ true
        → WritesOnOk W.write_str_gives f.old result (orders_text maps.now.bodies maps.now.policies) f.new }
{
    if maps.is_empty() {
        return f.write_str("<empty policyset>");
    }
    write_titled(maps.all_templates(), maps.policies(), f)
}

// Writes the bodies and the policies, each list after its title.
fn write_titled<W: fmt::Write>(
    bodies: AllTemplates<'_>,
    policies: Policies<'_>,
    f: &mut fmt::Formatter<W>,
) -> fmt::Result
    ensures { (list_all is_known_body bodies.entry && list_all is_known_policy policies.entry) ≡ true
        → WritesOnOk W.write_str_gives f.old result (titled_text bodies.entry policies.entry) f.new }
{
    f.write_str("Templates:\n")?;
    write_bodies(bodies, f)?;
    f.write_str(", Template Linked Policies:\n")?;
    write_policies(policies, f)
}

// Writes bodies, separated by line feeds.
fn write_bodies<W: fmt::Write>(
    mut bodies: AllTemplates<'_>,
    f: &mut fmt::Formatter<W>,
) -> fmt::Result
    ensures { list_all is_known_body bodies.entry ≡ true
        → WritesOnOk W.write_str_gives f.old result (bodies_text bodies.entry) f.new }
{
    match bodies.next() {
        None => Ok(()),
        Some(first) => write_parted(first, bodies, f),
    }
}

// Writes a body, and then the other bodies, each after a line feed.
fn write_parted<W: fmt::Write>(
    first: &Template,
    rest: AllTemplates<'_>,
    f: &mut fmt::Formatter<W>,
) -> fmt::Result
    ensures { (is_known_body first.now && list_all is_known_body rest.entry) ≡ true
        → WritesOnOk W.write_str_gives f.old result (known_body first.now
        ++ flat_map body_line rest.entry) f.new }
{
    write_body(first, f)?;
    write_body_lines(rest, f)
}

#[tactic(auto, using(crate::proofs::Told::known_text))]
fn write_body_line<W: fmt::Write>(body: &Template, f: &mut fmt::Formatter<W>) -> fmt::Result
    ensures { is_known_body body.now ≡ true
        → WritesOnOk W.write_str_gives f.old result (body_line body.now) f.new }
{
    write!(f, "\n{body}")
}

#[tactic(auto, using(crate::proofs::Told::known_text))]
fn write_body<W: fmt::Write>(body: &Template, f: &mut fmt::Formatter<W>) -> fmt::Result
    ensures { is_known_body body.now ≡ true
        → WritesOnOk W.write_str_gives f.old result (known_body body.now) f.new }
{
    write!(f, "{body}")
}

fn write_body_lines<W: fmt::Write>(
    bodies: AllTemplates<'_>,
    f: &mut fmt::Formatter<W>,
) -> fmt::Result
    ensures { list_all is_known_body bodies.entry ≡ true
        → WritesOnOk W.write_str_gives f.old result (flat_map body_line bodies.entry) f.new }
{
    for body in bodies {
        write_body_line(body, f)?;
    }
    Ok(())
}

// Writes policies, separated by line feeds.
fn write_policies<W: fmt::Write>(
    mut policies: Policies<'_>,
    f: &mut fmt::Formatter<W>,
) -> fmt::Result
    ensures { list_all is_known_policy policies.entry ≡ true
        → WritesOnOk W.write_str_gives f.old result (policies_text policies.entry) f.new }
{
    match policies.next() {
        None => Ok(()),
        Some(first) => {
            write_policy(first, f)?;
            write_policy_lines(policies, f)
        }
    }
}

#[tactic(auto, using(crate::proofs::Told::known_text))]
fn write_policy_line<W: fmt::Write>(policy: &Policy, f: &mut fmt::Formatter<W>) -> fmt::Result
    ensures { is_known_policy policy.now ≡ true
        → WritesOnOk W.write_str_gives f.old result (policy_line policy.now) f.new }
{
    write!(f, "\n{policy}")
}

#[tactic(auto, using(crate::proofs::Told::known_text))]
fn write_policy<W: fmt::Write>(policy: &Policy, f: &mut fmt::Formatter<W>) -> fmt::Result
    ensures { is_known_policy policy.now ≡ true
        → WritesOnOk W.write_str_gives f.old result (known_policy policy.now) f.new }
{
    write!(f, "{policy}")
}

fn write_policy_lines<W: fmt::Write>(
    policies: Policies<'_>,
    f: &mut fmt::Formatter<W>,
) -> fmt::Result
    ensures { list_all is_known_policy policies.entry ≡ true
        → WritesOnOk W.write_str_gives f.old result (flat_map policy_line policies.entry) f.new }
{
    for policy in policies {
        write_policy_line(policy, f)?;
    }
    Ok(())
}

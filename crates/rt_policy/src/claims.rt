ghost use Rattle.std.specs.Prelude.{◌≡◌};
ghost use Rattle.rt_value.specs.Lent.{value_of};
ghost use Rattle.rt_policy.specs.Worth.{uuid_or_null, text_or_null, claim_of};

use rt_value::{Claim, LentValue, Text};

/// The user of the claims, null where they name none.
pub fn uuid(sub: Option<u128>) -> LentValue<'static>
    ensures { value_of result ≡ uuid_or_null sub }
{
    match sub {
        None => LentValue::Null,
        Some(n) => LentValue::Uuid(n),
    }
}

fn lend_text(text: &Option<Text>) -> LentValue<'_>
    ensures { value_of result ≡ text_or_null text.now }
{
    match text {
        None => LentValue::Null,
        Some(text) => LentValue::Text(text.get()),
    }
}

/// The claim of a name, null where there is none.
pub fn claim<'a>(members: &'a [Claim], name: &str) -> LentValue<'a>
    ensures { value_of result ≡ claim_of members.now name.now }
{
    for member in members {
        if member.name.get() == name {
            return lend_text(&member.value);
        }
    }
    LentValue::Null
}

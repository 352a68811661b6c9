// A rule as a host hands it in.
ghost use Rattle.std.specs.Prelude.{◌≡◌};
ghost use Rattle.host.specs.Codes.{rule_given};

use rules::Rule;

// The rule in its bytes, or one that has no target.
pub fn rule_in(s: &[u8]) -> Rule
    ensures { result ≡ rule_given s.now }
{
    if s.len() == rule_bytes::SIZE {
        return rule_bytes::rule_of(s);
    }
    rule_bytes::blank()
}

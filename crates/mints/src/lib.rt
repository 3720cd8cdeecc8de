// The mints that a region's token actions list.
#![tactic(auto)]

ghost use Rattle.std.specs.Prelude.{◌≡◌};
ghost use Rattle.row.specs.Views.{actions_in};
ghost use Rattle.mints.specs.Views.{listed_mints};

use action::ActionView;
use action::fields::{is_token, key_of};
use keys::Keys;

pub fn listed_mints(region: &[u8], views: &[ActionView]) -> Keys
    ensures { result ≡ listed_mints (actions_in region.now views.now) }
{
    let mut mints = Keys::none();
    for view in views {
        if is_token(view.kind) {
            mints.push(key_of(region, *view));
        }
    }
    mints
}

// Laws of the definitions that the contracts cite.
ghost use Rattle.live_posts.specs.Laws.{FindsRoom, GoesOnUnshut};

/// Where there is room for 4,097 posts, which are the most lines of a feed and a stop, no post of its feeder is refused for want
/// of room; and where nobody shuts the journal, none is refused for that.
pub fn no_post_is_refused()
    ensures room { FindsRoom }
    ensures unshut { GoesOnUnshut }
{}

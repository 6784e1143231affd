//! Laws over the definitions.
ghost use Rattle.server_places.specs.Sites.{OneStory, StoriesGoOn};
ghost use Rattle.server_places.specs.Rooms.{PullsGoOn};
ghost use Rattle.server_places.specs.Halls.{HallPullsGoOn};

/// Who looks into a place again and again is told just what it is sent over the place's history: of the hall, and of a room.
/// The promise is the statement; the call does nothing.
pub fn law_of_places()
    ensures hall { HallPullsGoOn }
    ensures room { PullsGoOn }
{}

/// The commands of a place tell one story at the most, and more commands go on with it. The promise is the statement; the
/// call does nothing.
pub fn law_of_stories()
    ensures one { OneStory }
    ensures more { StoriesGoOn }
{}

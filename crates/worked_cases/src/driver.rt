// Runs the cases of texts. README.md has the lines of such a text.
mod begins;
mod outcome;
mod pairs;
mod scene;
mod stops;

pub(crate) use self::scene::Scene;

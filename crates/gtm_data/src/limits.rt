/// Lists and Maps nest at most so many levels deep: the depth of data.
pub const MAX_DEPTH: usize = 64;

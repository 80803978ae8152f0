mod channels;
mod filters;
mod messages;
mod stores;

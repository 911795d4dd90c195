mod failing_streams;
mod flush_before_read;
mod flushes;
mod reads;
mod writes;
